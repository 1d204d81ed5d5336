//! The definitions of the points that are served.
ghost use Rattle.std.specs.Prelude.{◌≡◌, nat_eq, find, option_map};
ghost use Rattle.served_ranges.specs.Shown.{model_of, point_of_entry, point_of_tag};

use model_defs::{ModelDef, Point};
use site_model::{Served, SiteTag};

/// The definition's point of an entry of the site file.
pub fn point_of_entry<'a>(models: &'a [ModelDef], entry: &Served) -> Option<&'a Point>
    ensures { option_map (λ p. p.now) result ≡ point_of_entry models.now entry.now }
{
    let model = model_of(models, entry.model)?;
    model.points.as_slice().get(entry.point)
}

/// The definition's point of a tag of the gateway's own models.
pub fn point_of_tag<'a>(models: &'a [ModelDef], tag: &SiteTag) -> Option<&'a Point>
    ensures { option_map (λ p. p.now) result ≡ point_of_tag models.now tag.now }
{
    let model = model_of(models, tag.model)?;
    point_at(model.points.as_slice(), tag.offset)
}

/// The definition of a model of the gateway.
pub fn model_of(models: &[ModelDef], id: u16) -> Option<&ModelDef>
    ensures { option_map (λ m. m.now) result ≡ model_of models.now id }
{
    for model in models {
        if model.id == id {
            return Some(model);
        }
    }
    None
}

fn point_at(points: &[Point], offset: u16) -> Option<&Point>
    ensures { option_map (λ p. p.now) result ≡ find (λ p. nat_eq p.offset offset) points.now }
{
    for point in points {
        if point.offset == offset {
            return Some(point);
        }
    }
    None
}
