//! What the gateway's own points that show a total, or what the program stored, may have to say, and whether they always
//! say it; and whether the points of outputs can be set to all that the program may store: before the first scan, by the
//! ranges of the site file.
#![tactic(auto)]

mod factor;
mod numbers;
mod points;
mod set_points;
mod shown;
mod totals;

// the points that are served
pub use points::{model_of, point_of_entry, point_of_tag};
// what the points of outputs may have to say, and whether they can
pub use set_points::{demand_of_set, factor_for_range};
// what they may have to say, and whether they always say it
pub use shown::{
    Demand, always_shows_stored, always_shows_sum, demand_of_partial, demand_of_stored,
    demand_of_sum, demand_of_total, is_always_met,
};
