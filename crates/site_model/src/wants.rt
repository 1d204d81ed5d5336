//! What a site asks of its devices, found from its tags.
ghost use Rattle.std.specs.Prelude.{◌≡◌, ◌<◌, Option, IfOk, IfSome, length};
ghost use Rattle.std.specs.List.{list_any, position};
ghost use Rattle.std.specs.Str.{bytes_eq};
ghost use Rattle.site_model.specs.Wants.{is_of_device, is_output, length_of, outs_of, same_want, want_of, wants_of, with_want};

use crate::access::Access;
use crate::tag::SiteTag;
use crate::want::Want;
use point_types::Items;
use std::alloc::{AllocError, Global};

/// The device and the model of each `in` and `out` tag, each once, by first use.
pub fn wants_of(alloc: Global, tags: &[SiteTag]) -> Result<Items<Want>, AllocError>
    ensures { IfOk result (λ wants. wants ≡ wants_of tags.now) }
{
    let mut wants = Items::new(alloc);
    for tag in tags {
        add_want(&mut wants, want_of(tag))?;
    }
    Ok(wants)
}

/// The numbers of the `out` tags, in order.
pub fn outs_of(alloc: Global, tags: &[SiteTag]) -> Result<Items<usize>, AllocError>
    ensures { IfOk result (λ outs. outs ≡ outs_of tags.now) }
{
    let mut outs = Items::new(alloc);
    for (i, tag) in tags.iter().enumerate() {
        if is_output(tag.access) {
            outs.push(i)?;
        }
    }
    Ok(outs)
}

/// The number of the tag of a name.
pub fn place_of(tags: &[SiteTag], name: &str) -> Option<usize>
    ensures { result ≡ position (λ t. bytes_eq t.name name.now) tags.now }
{
    tags.iter().position(|tag| tag.name.as_str() == name)
}

/// The length of a model, by a table of models and their lengths; None where the model isn't in the table.
pub fn length_of(lengths: &[(u16, u16)], model: u16) -> Option<u16>
    ensures { result ≡ length_of lengths.now model }
{
    lengths
        .iter()
        .find(|entry| entry.0 == model)
        .map(|entry| entry.1)
}

/// The device and the model of a tag whose point lies in a device.
pub(crate) fn want_of(tag: &SiteTag) -> Option<Want>
    ensures { result ≡ want_of tag.now }
{
    if is_of_device(tag.access) {
        tag.device.map(|device| Want {
            device,
            model: tag.model,
        })
    } else {
        None
    }
}

fn add_want(wants: &mut Items<Want>, want: Option<Want>) -> Result<(), AllocError>
    ensures { IfOk result (λ _. wants.new ≡ with_want wants.old want) }
{
    let Some(want) = want else {
        return Ok(());
    };
    if !is_wanted(wants.as_slice(), want) {
        wants.push(want)?;
    }
    Ok(())
}

fn is_wanted(wants: &[Want], want: Want) -> bool
    ensures { result ≡ list_any (same_want want) wants.now }
{
    wants.iter().any(|known| known.device == want.device && known.model == want.model)
}

/// The number of a want among these.
pub fn place_of_want(wants: &[Want], want: Want) -> Option<usize>
    ensures place { result ≡ position (same_want want) wants.now }
    ensures inside { IfSome result (λ i. i < length wants.now) }
{
    wants.iter().position(|known| known.device == want.device && known.model == want.model)
}

fn is_of_device(access: Access) -> bool
    ensures { result ≡ is_of_device access }
{
    match access {
        Access::Input | Access::Output => true,
        Access::Setting | Access::Shown | Access::Time => false,
    }
}

fn is_output(access: Access) -> bool
    ensures { result ≡ is_output access }
{
    matches!(access, Access::Output)
}
