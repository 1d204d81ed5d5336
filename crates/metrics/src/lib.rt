//! The numbers of a service for a monitor, in Prometheus' text format (version 0.0.4).
#![tactic(auto)]

mod alarms;
mod devices;
mod labels;
mod numbers;
mod program;
mod sheet;
mod tags;

pub use labels::push_label;
pub use numbers::{Metrics, metrics_text};
pub use tags::tag_number;
