//! Which `out` tags are written only together with another one.
ghost use Rattle.std.specs.Prelude.{◌≡◌, ◌≢◌, ◌-◌, length, map, option_and_then, option_map, slice_get, Some, Ok, Err, IfOk, IfErr};
ghost use Rattle.site_model.specs.Companions.{companion_of, companions_of, comes_to_end, first_unpaired, is_paired, may_lead, names_one, number_from, paired, unless_unpaired, unpaired_from};
ghost use Rattle.site_model.specs.Parts.{IsUnpaired};
ghost use Rattle.site_model.specs.Readings.{known_at};
ghost use Rattle.site_model.specs.TagView.{tag_view};
ghost use Rattle.site_model.specs.declared.fault.SiteFault.TheVariants as fault;

use crate::access::Access;
use crate::fault::SiteFault;
use crate::part::SitePart;
use crate::tag::SiteTag;
use crate::tags::is_same_device;
use point_types::Items;
use std::alloc::{AllocError, Global};

/// For each tag the number of the `out` tag without which it isn't written. BadType: one names no `out` tag of its device, or
/// one from which the way from tag to tag leads back; its part is noted.
pub(crate) fn read_companions(
    alloc: Global,
    tags: &[SiteTag],
    part: &mut SitePart,
) -> Result<Items<Option<usize>>, SiteFault>
    ensures told { IfOk result (λ companions. paired (map tag_view tags.now) ≡ Ok companions) }
    ensures made { IfOk result (λ companions. companions ≡ companions_of (map tag_view tags.now)) }
    ensures refused { IfErr result (λ e. e ≢ fault.OutOfMemory → paired (map tag_view tags.now) ≡ Err e) }
    ensures placed { IfErr result (λ e. e ≢ fault.OutOfMemory → IsUnpaired (map tag_view tags.now) part.new e) }
{
    let companions = companions_of(alloc, tags)?;
    match first_unpaired(tags, companions.as_slice()) {
        None => Ok(companions),
        Some(number) => {
            *part = SitePart::Tag(number);
            Err(SiteFault::BadType)
        }
    }
}

fn companions_of(alloc: Global, tags: &[SiteTag]) -> Result<Items<Option<usize>>, AllocError>
    ensures { IfOk result (λ companions. companions ≡ companions_of (map tag_view tags.now)) }
{
    let mut companions = Items::new(alloc);
    for tag in tags {
        companions.push(companion_of(tags, tag))?;
    }
    Ok(companions)
}

/// The number of the tag that one goes with.
fn companion_of(tags: &[SiteTag], tag: &SiteTag) -> Option<usize>
    ensures { result ≡ companion_of (map tag_view tags.now) (tag_view tag.now) }
{
    match &tag.companion {
        Some(name) => number_of(tags, name.as_str()),
        None => None,
    }
}

fn number_of(tags: &[SiteTag], name: &str) -> Option<usize>
    ensures { result ≡ number_from 0 name.now (map tag_view tags.now) }
{
    for (i, tag) in tags.iter().enumerate() {
        if tag.name.as_str() == name {
            return Some(i);
        }
    }
    None
}

/// The number of the first tag that names another one which it may not.
fn first_unpaired(tags: &[SiteTag], companions: &[Option<usize>]) -> Option<usize>
    requires { companions.now ≡ companions_of (map tag_view tags.now) }
    ensures { result ≡ first_unpaired (map tag_view tags.now) }
{
    for (i, tag) in tags.iter().enumerate() {
        if !is_paired(tags, companions, i, tag) {
            return Some(i);
        }
    }
    None
}

fn is_paired(tags: &[SiteTag], companions: &[Option<usize>], i: usize, tag: &SiteTag) -> bool
    requires { companions.now ≡ companions_of (map tag_view tags.now) }
    ensures { result ≡ is_paired (map tag_view tags.now) i (tag_view tag.now) }
{
    names_one(tags, tag) && comes_to_end(companions, tags.len(), Some(i))
}

/// Whether a tag names none, or an `out` tag of its device.
fn names_one(tags: &[SiteTag], tag: &SiteTag) -> bool
    ensures { result ≡ names_one (map tag_view tags.now) (tag_view tag.now) }
{
    tag.companion.is_none() || leads(tags, tag, companion_of(tags, tag))
}

fn leads(tags: &[SiteTag], tag: &SiteTag, number: Option<usize>) -> bool
    ensures { result ≡ may_lead (tag_view tag.now) (option_and_then (slice_get (map tag_view tags.now)) number) }
{
    let Some(number) = number else {
        return false;
    };
    match tags.get(number) {
        Some(other) => may_lead(tag, other),
        None => false,
    }
}

fn may_lead(tag: &SiteTag, other: &SiteTag) -> bool
    ensures { result ≡ may_lead (tag_view tag.now) (Some (tag_view other.now)) }
{
    matches!(other.access, Access::Output) && is_same_device(tag.device, other.device)
}

/// Whether the way from tag to tag comes to an end after so many at most.
fn comes_to_end(companions: &[Option<usize>], most: usize, from: Option<usize>) -> bool
    ensures { result ≡ comes_to_end most companions.now from }
{
    let mut place = from;
    let mut left = most;
    while left > 0 {
        let Some(i) = place else {
            return true;
        };
        place = companion_at(companions, i);
        left -= 1;
    }
    place.is_none()
}

/// What a list of companions says of the tag with this number.
pub(crate) fn companion_at(companions: &[Option<usize>], number: usize) -> Option<usize>
    ensures { result ≡ known_at companions.now number }
{
    match companions.get(number) {
        Some(companion) => *companion,
        None => None,
    }
}
