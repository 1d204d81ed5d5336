//! The inputs of which a served point shows the total.
ghost use Rattle.std.specs.Prelude.{◌≡◌, [], map, find, option_map, option_and_then, IfOk, IfErr};
ghost use Rattle.toml.specs.Data.{as_str};
ghost use Rattle.toml.specs.View.{view, items_view};
ghost use Rattle.site_model.specs.Serving.{exponent_of_part, is_input_named, is_part, part_from, part_number, parts_behind, sum_of};
ghost use Rattle.site_model.specs.TagView.{tag_view};
ghost use Rattle.site_model.specs.declared.fault.SiteFault.{SiteFault};
ghost use Rattle.site_model.specs.declared.fault.SiteFault.TheVariants as fault;

use crate::fault::SiteFault;
use crate::tag::SiteTag;
use crate::tag_rules::is_input;
use point_types::Items;
use std::alloc::Global;
use toml::Value;

/// The numbers of a sum's inputs: at least one, all with the exponent of the first; None where they aren't.
pub(crate) fn sum_of(
    alloc: Global,
    tags: &[SiteTag],
    parts: &[Value],
) -> Result<Option<Items<usize>>, SiteFault>
    ensures told { IfOk result (λ s. s ≡ sum_of (map tag_view tags.now) (items_view parts.now)) }
    ensures memory { IfErr result (λ e. e ≡ fault.OutOfMemory) }
{
    match parts {
        [first, ..] => match exponent_of_part(tags, first) {
            Some(exponent) => parts_of(alloc, exponent, tags, parts),
            None => Ok(None),
        },
        [] => Ok(None),
    }
}

/// The exponent of the input of a name.
fn exponent_of_part(tags: &[SiteTag], part: &Value) -> Option<i8>
    ensures { result ≡ exponent_of_part (map tag_view tags.now) (view part.now) }
{
    let name = part.as_str()?;
    let tag = input_named(tags, name)?;
    Some(tag.exponent)
}

fn input_named<'a>(tags: &'a [SiteTag], name: &str) -> Option<&'a SiteTag>
    ensures { option_map (λ t. tag_view t.now) result ≡ find (is_input_named name.now) (map tag_view tags.now) }
{
    for tag in tags {
        if is_input_named(name, tag) {
            return Some(tag);
        }
    }
    None
}

/// The numbers of inputs of one exponent, in order; None where one is none.
fn parts_of(
    alloc: Global,
    exponent: i8,
    tags: &[SiteTag],
    parts: &[Value],
) -> Result<Option<Items<usize>>, SiteFault>
    ensures told { IfOk result (λ s. s ≡ parts_behind exponent (map tag_view tags.now) [] (items_view parts.now)) }
    ensures memory { IfErr result (λ e. e ≡ fault.OutOfMemory) }
{
    let mut numbers = Items::new(alloc);
    for part in parts {
        let Some(number) = part_number(exponent, tags, part) else {
            return Ok(None);
        };
        numbers.push(number)?;
    }
    Ok(Some(numbers))
}

/// The number of the input of a name and an exponent.
fn part_number(exponent: i8, tags: &[SiteTag], part: &Value) -> Option<usize>
    ensures { result ≡ part_number exponent (map tag_view tags.now) (view part.now) }
{
    number_of_part(exponent, tags, part.as_str()?)
}

fn number_of_part(exponent: i8, tags: &[SiteTag], name: &str) -> Option<usize>
    ensures { result ≡ part_from 0 exponent name.now (map tag_view tags.now) }
{
    for (i, tag) in tags.iter().enumerate() {
        if is_part(exponent, name, tag) {
            return Some(i);
        }
    }
    None
}

fn is_part(exponent: i8, name: &str, tag: &SiteTag) -> bool
    ensures { result ≡ is_part exponent name.now (tag_view tag.now) }
{
    is_input_named(name, tag) && tag.exponent == exponent
}

fn is_input_named(name: &str, tag: &SiteTag) -> bool
    ensures { result ≡ is_input_named name.now (tag_view tag.now) }
{
    tag.name.as_str() == name && is_input(tag.access)
}
