//! The tags of a program, linked to those of a site.
ghost use Rattle.std.specs.Prelude.{◌≡◌, IfOk, map};
ghost use Rattle.verifier.specs.Links.{allowed, is_stored, link_of, links_from, number_of};
ghost use Rattle.verifier.specs.Ranges.{range_of};
ghost use Rattle.facts.specs.Word.{AnswersOrWantsMemory};

use facts::refusal::{Refusal, RefusalKind, RefusedAt};
use facts::tag_range::TagRange;
use point_types::{Items, Name};
use scan_code::Tag;
use site_model::{Access, SiteTag};
use std::alloc::{AllocError, Global};

/// A tag of a site, and its number there.
#[derive(Clone, Copy, PartialEq, Eq, Debug)]
pub struct TagLink {
    pub number: usize,
    pub site: SiteTag,
}

/// The site's tag of each tag of an image, in the image's order. Refused is the first tag, by its
/// number, that the site doesn't have (TagUnknown), or has with another type (TagType), or that is
/// loaded but not one that programs load, or stored but not one that they store (TagAccess).
pub fn links(alloc: Global, site: &[SiteTag], tags: &[Tag]) -> Result<Items<TagLink>, Refusal>
    ensures { AnswersOrWantsMemory (λ links. links) (links_from site.now 0 tags.now) result }
{
    let mut links = Vec::new(alloc);
    let mut at = 0;
    let mut rest = tags;
    while let [tag, after @ ..] = rest {
        let link = match link_of(site, tag) {
            Ok(link) => link,
            Err(kind) => {
                let at = RefusedAt::Tag(at);
                return Err(Refusal { at, kind });
            }
        };
        links.push(link)?;
        at += 1;
        rest = after;
    }
    Ok(Items::from_vec(links))
}

/// The site's tag of one tag of an image.
fn link_of(site: &[SiteTag], tag: &Tag) -> Result<TagLink, RefusalKind>
    ensures { result ≡ link_of site.now tag.now }
{
    let Some(number) = number_of(site, &tag.name) else {
        return Err(RefusalKind::TagUnknown);
    };
    match site.get(number) {
        Some(other) => allowed(
            tag,
            TagLink {
                number,
                site: *other,
            },
        ),
        None => Err(RefusalKind::TagUnknown),
    }
}

/// The number of the first tag of the site that has a name.
fn number_of(site: &[SiteTag], name: &Name) -> Option<usize>
    ensures { result ≡ number_of site.now name.now }
{
    site.iter()
        .position(|tag| tag.name.as_bytes() == name.as_bytes())
}

/// The link, where types and directions agree.
fn allowed(tag: &Tag, link: TagLink) -> Result<TagLink, RefusalKind>
    ensures { result ≡ allowed tag.now link }
{
    if tag.kind != link.site.kind {
        return Err(RefusalKind::TagType);
    }
    if tag.output != is_stored(link.site.access) {
        return Err(RefusalKind::TagAccess);
    }
    Ok(link)
}

/// Whether programs store such a tag; they load the others.
fn is_stored(access: Access) -> bool
    ensures { result ≡ is_stored access }
{
    match access {
        Access::Output | Access::Shown => true,
        Access::Input | Access::Setting | Access::Time => false,
    }
}

/// What the site says of each of these tags.
pub fn ranges(alloc: Global, links: &[TagLink]) -> Result<Items<TagRange>, AllocError>
    ensures { IfOk result (λ tags. tags ≡ map range_of links.now) }
{
    let mut tags = Vec::with_capacity(alloc, links.len())?;
    for link in links {
        tags.push(range_of(link))?;
    }
    Ok(Items::from_vec(tags))
}

fn range_of(link: &TagLink) -> TagRange
    ensures { result ≡ range_of link.now }
{
    TagRange {
        output: is_stored(link.site.access),
        kind: link.site.kind,
        low: link.site.low,
        high: link.site.high,
        has_default: link.site.default.is_some(),
    }
}
