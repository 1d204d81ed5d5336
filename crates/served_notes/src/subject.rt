//! What a point is to show, and the definitions of it and of its scale factor.
use model_defs::{ModelDef, Point, Sf};
use served_ranges::{model_of, point_of_entry, point_of_tag};
use site_model::{Served, SiteTag};

/// What a point is to show.
#[derive(Clone, Copy, PartialEq, Eq, Debug)]
pub(crate) enum ShownNumber {
    /// The total of some tags.
    Total,
    /// What the program stores in a tag.
    Stored,
}

/// A point that doesn't always show what it is to: its name, and that of the point with its scale factor, where it has
/// one.
#[derive(Clone, Copy)]
pub(crate) struct Subject<'a> {
    pub shown: ShownNumber,
    pub point: &'a str,
    pub factor: Option<&'a str>,
}

impl<'a> Subject<'a> {
    /// The point of an entry of the site file, which shows a total.
    pub(crate) fn of_entry(models: &'a [ModelDef], entry: &Served) -> Option<Subject<'a>> {
        let model = model_of(models, entry.model)?;
        let point = point_of_entry(models, entry)?;
        Some(Subject::of(ShownNumber::Total, model, point))
    }

    /// The point of a `site` tag.
    pub(crate) fn of_tag(models: &'a [ModelDef], tag: &SiteTag) -> Option<Subject<'a>> {
        let model = model_of(models, tag.model)?;
        let point = point_of_tag(models, tag)?;
        Some(Subject::of(ShownNumber::Stored, model, point))
    }

    fn of(shown: ShownNumber, model: &'a ModelDef, point: &'a Point) -> Subject<'a> {
        Subject {
            shown,
            point: point.name.as_str(),
            factor: factor_name(model, point.sf),
        }
    }
}

fn factor_name(model: &ModelDef, sf: Sf) -> Option<&str> {
    match sf {
        Sf::At(number) => {
            let point = model.points.as_slice().get(number)?;
            Some(point.name.as_str())
        }
        Sf::None | Sf::Fixed(_) => None,
    }
}
