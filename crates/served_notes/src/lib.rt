//! Warnings of what a site's points can't say in each case: a sum or what the program may store in a `site` tag, to clients,
//! and what it may store in an `out` tag, to a device. Which these are is proved below (served_ranges); of the words nothing
//! is proved but that they end and are safe.
#![tactic(auto)]

mod limits;
mod mending;
mod reason;
mod set_points;
mod subject;
mod warnings;
mod words;

// warnings of a site
pub use warnings::{shown_warnings, unfitted_warnings};
// why a point doesn't say each number of a range, and the word of its kind
pub use limits::SettingLimits;
pub use reason::{Reason, reason_of};
pub use words::kind_word;
