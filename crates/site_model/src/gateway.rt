//! The gateway: its unit, its base and its models.
ghost use Rattle.std.specs.Prelude.{◌≡◌, ◌≢◌, ◌+◌, ℕ, pos, [], ◌++◌, ◌∷◌, codes, nat_eq, nat_le, find, sum_by, option_map, option_and_then, option_copied, Ok, Err, Some, None, IfOk, IfErr, MatchResult};
ghost use Rattle.std.specs.List.{list_any};
ghost use Rattle.std.specs.Option.{ok_or};
ghost use Rattle.toml.specs.Data.{get, as_integer};
ghost use Rattle.toml.specs.View.{view, items_view};
ghost use Rattle.site_model.specs.Gateway.{gateway_keys, gateway_of, gateway_within, definition_of, definitions_behind, latest, has_id, begins_with_common, has_distinct_ids, end_of_map, is_map};
ghost use Rattle.site_model.specs.Views.{gateway_keys_view, gateway_view};
ghost use Rattle.site_model.specs.declared.fault.SiteFault.{SiteFault};
ghost use Rattle.site_model.specs.declared.fault.SiteFault.TheVariants as fault;

use crate::fault::SiteFault;
use file_keys::{base_of, byte_of, number_at, numbers_in, optional_number_at};
use model_defs::ModelDef;
use point_types::Items;
use std::alloc::Global;
use toml::Value;

/// The base of a gateway whose file names none.
const USUAL_BASE: i64 = 40000;

/// The gateway: its unit, the address of its mark, and the definitions of its models in order.
#[derive(Drop)]
pub(crate) struct Gateway {
    pub(crate) unit: u8,
    pub(crate) base: u16,
    pub(crate) models: Items<ModelDef>,
}

/// The keys of the gateway, each of its kind.
#[derive(Clone, Copy)]
struct GatewayKeys<'a> {
    unit: i64,
    base: Option<i64>,
    models: &'a [Value],
}

/// Reads the section of the gateway.
pub(crate) fn read_gateway(
    alloc: Global,
    defs: &[ModelDef],
    file: &Value,
) -> Result<Gateway, SiteFault>
    ensures told { IfOk result (λ g. gateway_of defs.now (view file.now) ≡ Ok (gateway_view g)) }
    ensures refused { IfErr result (λ e. e ≢ fault.OutOfMemory → gateway_of defs.now (view file.now) ≡ Err e) }
{
    let Some(keys) = keys_at(file) else {
        return Err(SiteFault::MissingKey);
    };
    let Some(models) = definitions_of(alloc, defs, keys.models)? else {
        return Err(SiteFault::UnknownModel);
    };
    gateway_within(keys, models).ok_or(SiteFault::BadRange)
}

fn keys_at(file: &Value) -> Option<GatewayKeys<'_>>
    ensures { option_map gateway_keys_view result ≡ option_and_then gateway_keys (get (codes "gateway") (view file.now)) }
{
    let gateway = file.get("gateway")?;
    Some(GatewayKeys {
        unit: number_at(gateway, "unit")?,
        base: optional_number_at(gateway, "base")?,
        models: numbers_in(gateway.get("models")?)?,
    })
}

/// The definition of an ID; of two with one ID the last one counts.
pub fn definition_of(defs: &[ModelDef], id: i64) -> Option<&ModelDef>
    ensures { option_map (λ d. d.now) result ≡ definition_of defs.now id }
{
    let mut found = None;
    for def in defs {
        if i64::from(def.id) == id {
            found = Some(def);
        }
    }
    found
}

/// The first of some models with an ID.
pub(crate) fn model_of(models: &[ModelDef], id: i64) -> Option<&ModelDef>
    ensures { option_map (λ m. m.now) result ≡ find (has_id id) models.now }
{
    models.iter().find(|model| i64::from(model.id) == id)
}

/// The definitions of a list of IDs, or None where one has none.
fn definitions_of(
    alloc: Global,
    defs: &[ModelDef],
    ids: &[Value],
) -> Result<Option<Items<ModelDef>>, SiteFault>
    ensures told { IfOk result (λ models. models ≡ definitions_behind defs.now [] (items_view ids.now)) }
    ensures memory { IfErr result (λ e. e ≡ fault.OutOfMemory) }
{
    let mut models = Items::new(alloc);
    for id in ids {
        let Some(model) = named_by(defs, id) else {
            return Ok(None);
        };
        models.push(model.clone()?)?;
    }
    Ok(Some(models))
}

/// The definition of an ID in the file.
fn named_by<'a>(defs: &'a [ModelDef], id: &Value) -> Option<&'a ModelDef>
    ensures { option_map (λ d. d.now) result ≡ option_and_then (definition_of defs.now) (as_integer (view id.now)) }
{
    definition_of(defs, id.as_integer()?)
}

/// The gateway of these models, where each number lies in its range and the map below 65536.
fn gateway_within(keys: GatewayKeys<'_>, models: Items<ModelDef>) -> Option<Gateway>
    ensures { option_map gateway_view result ≡ gateway_within (gateway_keys_view keys.entry) models }
{
    let unit = byte_of(keys.unit)?;
    let base = base_of(keys.base.unwrap_or(USUAL_BASE))?;
    if is_map(base, models.as_slice()) {
        Some(Gateway { unit, base, models })
    } else {
        None
    }
}

/// Whether the models make a map at that base: model 1 is first, none is there twice, and the map ends by 65535.
fn is_map(base: u16, models: &[ModelDef]) -> bool
    ensures { result ≡ is_map base models.now }
{
    begins_with_common(models) && has_distinct_ids(models) && ends_in_time(base, models)
}

fn begins_with_common(models: &[ModelDef]) -> bool
    ensures { result ≡ begins_with_common models.now }
{
    match models {
        [model, ..] => model.id == 1,
        [] => false,
    }
}

fn has_distinct_ids(models: &[ModelDef]) -> bool
    ensures { result ≡ has_distinct_ids models.now }
{
    let mut rest = models;
    while let [model, after @ ..] = rest {
        if has_model(after, model.id) {
            return false;
        }
        rest = after;
    }
    true
}

fn has_model(models: &[ModelDef], id: u16) -> bool
    ensures { result ≡ list_any (λ m. nat_eq m.id id) models.now }
{
    models.iter().any(|model| model.id == id)
}

/// Whether the end model's length lies at 65535 at most.
fn ends_in_time(base: u16, models: &[ModelDef]) -> bool
    ensures { result ≡ nat_le (end_of_map base models.now) 65535 }
{
    let mut end = u32::from(base) + 3;
    for model in models {
        if end > 65535 {
            return false;
        }
        end += u32::from(model.length) + 2;
    }
    end <= 65535
}
