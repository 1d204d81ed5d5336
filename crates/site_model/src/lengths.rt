//! The lengths of the models that a site names.
ghost use Rattle.std.specs.Prelude.{◌≡◌, ◌++◌, map, pos, IfOk};
ghost use Rattle.std.specs.Option.{option_map_or};
ghost use Rattle.site_model.specs.Gateway.{definition_of};
ghost use Rattle.site_model.specs.Lengths.{defined_length, length_of_model, length_of_tag, lengths_of};
ghost use Rattle.site_model.specs.TagView.{tag_view};

use crate::gateway::definition_of;
use crate::tag::SiteTag;
use model_defs::ModelDef;
use point_types::Items;
use std::alloc::{AllocError, Global};

/// Models with the lengths of their definitions: the gateway's, then those of the tags, some more than once.
pub(crate) fn lengths_of(
    alloc: Global,
    own: &[ModelDef],
    defs: &[ModelDef],
    tags: &[SiteTag],
) -> Result<Items<(u16, u16)>, AllocError>
    ensures { IfOk result (λ lengths. lengths ≡ lengths_of own.now defs.now (map tag_view tags.now)) }
{
    let mut lengths = own_lengths(alloc, own)?;
    for tag in tags {
        lengths.push((tag.model, defined_length(defs, tag.model)))?;
    }
    Ok(lengths)
}

fn own_lengths(alloc: Global, own: &[ModelDef]) -> Result<Items<(u16, u16)>, AllocError>
    ensures { IfOk result (λ lengths. lengths ≡ map length_of_model own.now) }
{
    let mut lengths = Items::new(alloc);
    for model in own {
        lengths.push((model.id, model.length))?;
    }
    Ok(lengths)
}

/// The length of a model's definition; 0 where it has none.
fn defined_length(defs: &[ModelDef], model: u16) -> u16
    ensures { result ≡ defined_length defs.now model }
{
    match definition_of(defs, i64::from(model)) {
        Some(def) => def.length,
        None => 0,
    }
}
