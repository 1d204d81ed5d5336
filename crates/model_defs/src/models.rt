//! The definitions that are shipped.
ghost use Rattle.std.specs.Prelude.{◌≡◌, map, option_map};
ghost use Rattle.model_defs.specs.Shipped.{shipped_text, shipped_texts};

mod common;
mod controls;
mod inverter;
mod nameplate;
mod settings;
mod status;
mod storage;

/// The models that are shipped (SunSpec Device Information Model Specification, models 1, 101 to 103 and 120
/// to 124), each with the JSON text of its definition.
static MODELS: [(u16, &str); 9] = [
    (1, common::TEXT),
    (101, inverter::SINGLE_PHASE),
    (102, inverter::SPLIT_PHASE),
    (103, inverter::THREE_PHASE),
    (120, nameplate::TEXT),
    (121, settings::TEXT),
    (122, status::TEXT),
    (123, controls::TEXT),
    (124, storage::TEXT),
];

/// The models that are shipped, by their IDs, each with the JSON text of its definition, which
/// [`read`](crate::read) reads.
pub fn shipped_models() -> &'static [(u16, &'static str)]
    ensures { map (λ model. (model.0, model.1.now)) result.now ≡ shipped_texts }
{
    &MODELS
}

/// The JSON text of the shipped definition of that ID; None for an ID that isn't shipped.
pub fn shipped(id: u16) -> Option<&'static str>
    ensures { option_map (λ text. text.now) result ≡ shipped_text id }
{
    for (model, text) in shipped_models() {
        if *model == id {
            return Some(*text);
        }
    }
    None
}
