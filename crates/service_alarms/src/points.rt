//! The points of the gateway's own that show a sum, or what the program stores.
use crate::alarm::Alarm;
use model_defs::Point;
use served_ranges::{Demand, demand_of_stored, demand_of_sum, point_of_entry, point_of_tag};
use site_model::Site;

/// The model and the name of the point that an alarm is of; None where it is of none.
pub fn shown_point(site: &Site, alarm: Alarm) -> Option<(u16, &str)> {
    match alarm {
        Alarm::SumHidden(entry, _) => {
            let entry = site.served().get(entry)?;
            Some((entry.model, name_of(point_of_entry(site.models(), entry)?)))
        }
        Alarm::StoredHidden(tag, _) => {
            let tag = site.tags().get(tag)?;
            Some((tag.model, name_of(point_of_tag(site.models(), tag)?)))
        }
        _ => None,
    }
}

fn name_of(point: &Point) -> &str {
    point.name.as_str()
}

/// How the point that an alarm is of says a number; None where it is of none.
pub(crate) fn demand_at(site: &Site, alarm: Alarm) -> Option<Demand> {
    match alarm {
        Alarm::SumHidden(entry, _) => demand_of_sum(site, site.served().get(entry)?),
        Alarm::StoredHidden(tag, _) => demand_of_stored(site, site.tags().get(tag)?),
        _ => None,
    }
}
