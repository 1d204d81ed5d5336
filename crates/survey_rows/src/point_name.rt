//! The names of points by their definitions.
use model_defs::{ModelDef, Point};
use site_model::SiteTag;

/// The definition of an ID; of several the last one counts.
pub(crate) fn definition_of(models: &[ModelDef], id: u16) -> Option<&ModelDef> {
    models.iter().rev().find(|model| model.id == id)
}

/// The name of a tag's point; empty where no definition has it.
pub(crate) fn point_name<'a>(models: &'a [ModelDef], tag: &SiteTag) -> &'a str {
    match definition_of(models, tag.model) {
        Some(model) => name_at(model.points.as_slice(), tag.offset),
        None => "",
    }
}

fn name_at(points: &[Point], offset: u16) -> &str {
    for point in points {
        if point.offset == offset {
            return point.name.as_str();
        }
    }
    ""
}
