//! An accepted program.
ghost use Rattle.std.specs.Prelude.{◌≡◌, ◌↔◌, true, slice_get};
ghost use Rattle.verifier.specs.Verified.{HasAlike, HasLinks, IsAlike};

use crate::tag_link::TagLink;
use point_types::{IlType, Items, Name};
use scan_code::Image;
use site_model::{Access, Site, SiteTag};
use std::marker::Model;

/// A program that was accepted for a site, to be run with at most DEPTH deferred values.
#[derive(Drop)]
pub struct Verified<const DEPTH: usize> {
    pub(crate) image: Image,
    pub(crate) links: Items<TagLink>,
    pub(crate) budget: u32,
}

impl<const DEPTH: usize> Model for Verified<DEPTH> {
    ghost use Rattle.verifier.specs.Verified.{Acceptance, IsVerified};

    ghost Value = { Acceptance };

    ghost view = { λ v. record { image = v.image; links = v.links; budget = v.budget } };

    ghost invariant = { λ v. IsVerified DEPTH (record { image = v.image; links = v.links; budget = v.budget }) };
}

impl<const DEPTH: usize> Verified<DEPTH> {
    ghost use Rattle.std.specs.Prelude.{◌≡◌, ◌<◌, ◌↔◌, true, length, Some, map, slice_get};
    ghost use Rattle.verifier.specs.Verified.{HasLinks, IsVerified};

    /// The greatest number of instructions that a scan takes.
    pub fn budget(&self) -> u32
        ensures budget { result ≡ self.now.budget }
        ensures verified { IsVerified DEPTH self.now }
    {
        self.budget
    }

    /// The image that was handed in.
    pub fn image(&self) -> &Image
        ensures image { result.now ≡ self.now.image }
        ensures verified { IsVerified DEPTH self.now }
    {
        &self.image
    }

    /// The site's tag of each tag of the image.
    pub fn links(&self) -> &[TagLink]
        ensures { result.now ≡ self.now.links }
    {
        self.links.as_slice()
    }

    /// The number of the site's tag that a tag of the image is.
    pub fn link(&self, i: usize) -> usize
        requires { i < length self.now.links }
        ensures { slice_get (map (λ link. link.number) self.now.links) i ≡ Some result }
    {
        self.links.as_slice()[i].number
    }

    /// Whether a site has, at the number of each link, a tag with the name, the type, the access, the
    /// range and the default of the link's tag.
    pub fn matches(&self, site: &Site) -> bool
        ensures { (result ≡ true) ↔ HasLinks site.now.tags self.now.links }
    {
        has_links(site.tags(), self.links.as_slice())
    }
}

fn has_links(site: &[SiteTag], links: &[TagLink]) -> bool
    ensures { (result ≡ true) ↔ HasLinks site.now links.now }
{
    let mut rest = links;
    while let [link, after @ ..] = rest {
        if !has_link(site, link) {
            return false;
        }
        rest = after;
    }
    true
}

fn has_link(site: &[SiteTag], link: &TagLink) -> bool
    ensures { (result ≡ true) ↔ HasAlike (slice_get site.now link.now.number) link.now.site }
{
    match site.get(link.number) {
        Some(tag) => is_alike(tag, &link.site),
        None => false,
    }
}

fn is_alike(tag: &SiteTag, verified: &SiteTag) -> bool
    ensures { (result ≡ true) ↔ IsAlike tag.now verified.now }
{
    let same_name = is_same_name(&tag.name, &verified.name);
    let same_access = is_same_access(tag.access, verified.access);
    let same_kind = is_same_kind(tag.kind, verified.kind);
    let same_range = tag.low == verified.low && tag.high == verified.high;
    let same_default = is_same_default(tag.default, verified.default);
    same_name && same_access && same_kind && same_range && same_default
}

fn is_same_name(name: &Name, other: &Name) -> bool
    ensures { (result ≡ true) ↔ (name.now ≡ other.now) }
{
    name.as_bytes() == other.as_bytes()
}

fn is_same_access(access: Access, other: Access) -> bool
    ensures { (result ≡ true) ↔ (access ≡ other) }
{
    access == other
}

fn is_same_kind(kind: IlType, other: IlType) -> bool
    ensures { (result ≡ true) ↔ (kind ≡ other) }
{
    kind == other
}

fn is_same_default(default: Option<i64>, other: Option<i64>) -> bool
    ensures { (result ≡ true) ↔ (default ≡ other) }
{
    default == other
}
