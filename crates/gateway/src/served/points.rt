//! The points of the gateway's own map, found from its site.
ghost use Rattle.std.specs.Prelude.{◌≡◌, ◌++◌, IfOk, OnOk};
ghost use Rattle.std.specs.List.{flat_map};
ghost use Rattle.site_model.specs.Tagging.{is_own};
ghost use Rattle.model_defs.specs.declared.point.Sf.TheVariants as factors;
ghost use Rattle.point_types.specs.Point.{size_of};
ghost use Rattle.point_types.specs.Reading.{factor_of};
ghost use Rattle.gateway.specs.served.Points.{entry_for, first_of, is_tag_at, model_points, own_point, own_points, raw_for, raw_in, registers_of, served_factor, tag_for, value_point};

use crate::served::point::{OwnPoint, PointSource};
use model_defs::{ModelDef, Point, Sf};
use point_types::{Items, Kind};
use site_model::{Access, Served, Site, SiteTag, Source as Given};
use std::alloc::{AllocError, Global};

/// The points of a gateway's map in the order of their registers: the mark, those of its models, the end model (SunSpec
/// Device Information Model Specification, device modbus maps).
pub fn own_points(alloc: Global, site: &Site) -> Result<Items<OwnPoint>, AllocError>
    ensures { IfOk result (λ points. points ≡ own_points site.now) }
{
    let mut points = Items::new(alloc);
    points.push(OwnPoint::Word(0x5375))?;
    points.push(OwnPoint::Word(0x6E53))?;
    push_models(&mut points, site)?;
    points.push(OwnPoint::Word(0xFFFF))?;
    points.push(OwnPoint::Word(0))?;
    Ok(points)
}

fn push_models(points: &mut Items<OwnPoint>, site: &Site) -> Result<(), AllocError>
    ensures { OnOk result (points.new ≡ points.old ++ flat_map (model_points site.now.served site.now.tags) site.now.models) }
{
    for model in site.models() {
        push_model(points, site.served(), site.tags(), model)?;
    }
    Ok(())
}

fn push_model(
    points: &mut Items<OwnPoint>,
    served: &[Served],
    tags: &[SiteTag],
    model: &ModelDef,
) -> Result<(), AllocError>
    ensures { OnOk result (points.new ≡ points.old ++ model_points served.now tags.now model.now) }
{
    for (i, point) in model.points.as_slice().iter().enumerate() {
        points.push(own_point(served, tags, model, i, point))?;
    }
    Ok(())
}

/// The point of this number of a model; the first two hold its ID and its length.
pub fn own_point(
    served: &[Served],
    tags: &[SiteTag],
    model: &ModelDef,
    i: usize,
    point: &Point,
) -> OwnPoint
    ensures { result ≡ own_point served.now tags.now model.now i point.now }
{
    match i {
        0 => OwnPoint::Word(model.id),
        1 => OwnPoint::Word(model.length),
        _ => value_point(served, tags, model, i, point),
    }
}

fn value_point(
    served: &[Served],
    tags: &[SiteTag],
    model: &ModelDef,
    i: usize,
    point: &Point,
) -> OwnPoint
    ensures { result ≡ value_point served.now tags.now model.now i point.now point.now.kind }
{
    let entry = entry_for(served, model.id, i);
    if point.kind == Kind::String {
        return OwnPoint::Text {
            size: point.size,
            entry,
        };
    }
    OwnPoint::Number {
        kind: point.kind,
        factor: served_factor(served, model.id, point.sf),
        source: first_of(entry, tag_for(tags, model.id, point.offset)),
    }
}

fn first_of(entry: Option<usize>, tag: Option<usize>) -> PointSource
    ensures { result ≡ first_of entry tag }
{
    match (entry, tag) {
        (Some(n), _) => PointSource::Entry(n),
        (None, Some(n)) => PointSource::Tag(n),
        (None, None) => PointSource::Nothing,
    }
}

/// The number of the site file's entry for a point.
fn entry_for(served: &[Served], model: u16, i: usize) -> Option<usize>
    ensures { result ≡ entry_for served.now model i }
{
    served
        .iter()
        .position(|entry| entry.model == model && entry.point == i)
}

/// The number of the `set` or `site` tag of a point.
fn tag_for(tags: &[SiteTag], model: u16, offset: u16) -> Option<usize>
    ensures { result ≡ tag_for tags.now model offset }
{
    tags.iter().position(|tag| is_tag_at(model, offset, tag))
}

fn is_tag_at(model: u16, offset: u16, tag: &SiteTag) -> bool
    ensures { result ≡ is_tag_at model offset tag.now }
{
    is_own(tag.access) && tag.model == model && tag.offset == offset
}

fn is_own(access: Access) -> bool
    ensures { result ≡ is_own access }
{
    match access {
        Access::Input | Access::Output | Access::Time => false,
        Access::Setting | Access::Shown => true,
    }
}

/// The factor by which a point is served: None where it is absent or outside -10..10.
pub fn served_factor(served: &[Served], model: u16, sf: Sf) -> Option<i16>
    ensures { result ≡ served_factor served.now model sf }
{
    match sf {
        Sf::None => Some(0),
        Sf::Fixed(power) => Some(i16::from(power)),
        Sf::At(i) => factor_of(raw_for(served, model, i)),
    }
}

fn factor_of(raw: Option<i64>) -> Option<i16>
    ensures { result ≡ factor_of raw }
{
    match raw {
        Some(power @ -10..=10) => Some(power as i16),
        _ => None,
    }
}

/// The raw number that the site file gives a point.
fn raw_for(served: &[Served], model: u16, i: usize) -> Option<i64>
    ensures { result ≡ raw_for served.now model i }
{
    let n = entry_for(served, model, i)?;
    raw_in(&served.get(n)?.source)
}

fn raw_in(given: &Given) -> Option<i64>
    ensures { result ≡ raw_in given.now }
{
    match given {
        Given::Raw(n) => Some(*n),
        Given::Text(_) | Given::Sum(_) | Given::PartialSum(_) => None,
    }
}
