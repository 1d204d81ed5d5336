//! What number of a tag the words of its point would be.
ghost use Rattle.std.specs.Prelude.{◌≡◌, position, IfSome};
ghost use Rattle.point_types.specs.declared.reading.Reading.TheVariants as reading;
ghost use Rattle.service_texts.specs.Numbers.{IsNumberBy, factor_in, is_at, is_model, tag_factor};

use gateway::served_factor;
use model_defs::{ModelDef, Point};
use point_types::{Kind, Reading, scaled, value};
use site_model::{Served, Site, SiteTag};

/// The number of a tag of the gateway's own, in the unit of its exponent, that words of its point would be, whatever its range.
/// None where they are those of no number, or of none that has 64 bits.
pub(crate) fn number_at(site: &Site, tag: &SiteTag, words: &[u16]) -> Option<i64>
    ensures { IfSome result (IsNumberBy tag.now (tag_factor site.now tag.now) words.now) }
{
    number_by(tag, tag_factor(site, tag), words)
}

/// The number of a tag, in the unit of its exponent, that words of its point would be by a factor, whatever the tag's range.
/// None where they are those of no number, or of none that has 64 bits.
fn number_by(tag: &SiteTag, factor: Option<i16>, words: &[u16]) -> Option<i64>
    ensures { IfSome result (IsNumberBy tag.now factor words.now) }
{
    if tag.point == Kind::String || words.len() != tag.point.size() {
        return None;
    }
    let raw = value(tag.point, words)?;
    number_in(scaled(raw, factor, tag.exponent, i64::MIN, i64::MAX))
}

fn number_in(read: Reading) -> Option<i64>
    ensures { IfSome result (λ n. read ≡ reading.Value n) }
{
    match read {
        Reading::Value(number) => Some(number),
        Reading::Default(..) | Reading::Absent(_) => None,
    }
}

/// The factor by which the point of a tag of the gateway's own is served.
fn tag_factor(site: &Site, tag: &SiteTag) -> Option<i16>
    ensures { result ≡ tag_factor site.now tag.now }
{
    let model = model_for(site.models(), tag.model)?;
    factor_in(
        site.served(),
        site.models().get(model)?,
        tag.model,
        tag.offset,
    )
}

/// The number of the model of an ID.
fn model_for(models: &[ModelDef], id: u16) -> Option<usize>
    ensures { result ≡ position (is_model id) models.now }
{
    models.iter().position(|model| model.id == id)
}

/// The factor by which the point of a model is served that stands so many registers after its ID.
fn factor_in(served: &[Served], model: &ModelDef, id: u16, offset: u16) -> Option<i16>
    ensures { result ≡ factor_in served.now id offset model.now }
{
    let point = point_for(model.points.as_slice(), offset)?;
    served_factor(served, id, model.points.as_slice().get(point)?.sf)
}

/// The number of the point that stands there.
fn point_for(points: &[Point], offset: u16) -> Option<usize>
    ensures { result ≡ position (is_at offset) points.now }
{
    points.iter().position(|point| point.offset == offset)
}
