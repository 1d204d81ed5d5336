//! The points of tags: in which unit their values are, and which of them are powers and limits of these.
use commands::definitions::definitions;
use model_defs::{DefFault, ModelDef, Point};
use note_text::escaped;
use run_report::Measure;
use site_model::{Access, SiteTag};
use std::alloc::{AllocError, Global};
use survey_rows::{HandedDefs, unit_of};

/// The definitions of a run, by what they say of the points of tags.
#[derive(Drop)]
pub(crate) struct TagPoints {
    models: Vec<ModelDef>,
    handed: HandedDefs,
}

impl TagPoints {
    /// The shipped definitions and those of some texts. Where one of these is none, which refuses the run, there are none.
    pub fn read(alloc: Global, texts: &[String]) -> Result<TagPoints, AllocError> {
        let models = match definitions(alloc, texts) {
            Ok(models) => models,
            Err(DefFault::OutOfMemory) => return Err(AllocError),
            Err(_) => Vec::new(alloc),
        };
        let handed = HandedDefs::read(alloc, texts)?;
        Ok(TagPoints { models, handed })
    }

    /// The unit of a tag's values; empty where they have none, or no definition says it.
    pub fn unit_of(&self, alloc: Global, tag: &SiteTag) -> Result<String, AllocError> {
        match self.unit_at(tag) {
            Some(unit) => escaped(alloc, unit),
            None => Ok(String::new(alloc)),
        }
    }

    /// The same as its definition has it; None where they have none.
    pub fn unit_at(&self, tag: &SiteTag) -> Option<&str> {
        match (tag.access, tag.bit) {
            (Access::Time, _) => Some("ms"),
            (_, Some(_)) => None,
            (_, None) => self.unit_of_point(tag.model, self.name_of(tag)),
        }
    }

    /// The unit of a model's point; None where its number has none, or no definition says it.
    pub fn unit_of_point(&self, model: u16, point: &str) -> Option<&str> {
        unit_of(&self.handed, model, point)
    }

    /// What a tag measures: the power of an inverter or a meter (models 101 to 113, 201 to 299, 701), or the limit of a power (models 123,
    /// 704).
    pub fn measure_of(&self, tag: &SiteTag) -> Measure {
        let name = self.name_of(tag);
        match (tag.access, tag.model) {
            (Access::Input, 101..=113 | 201..=299 | 701) if name == "W" => Measure::Power,
            (Access::Output, 123 | 704) if name == "WMaxLimPct" => Measure::Limit,
            _ => Measure::Other,
        }
    }

    /// The name of a tag's point; empty where no definition has it.
    pub fn name_of(&self, tag: &SiteTag) -> &str {
        let models = self.models.as_slice();
        match models.iter().rev().find(|model| model.id == tag.model) {
            Some(model) => name_at(model.points.as_slice(), tag.offset),
            None => "",
        }
    }
}

fn name_at(points: &[Point], offset: u16) -> &str {
    for point in points {
        if point.offset == offset {
            return point.name.as_str();
        }
    }
    ""
}
