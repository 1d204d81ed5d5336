//! The rules of site files one by one, for whoever tells which of them a text breaks.
pub use crate::file::{MOST_DEVICES, MOST_MODELS, MOST_SERVED, MOST_TAGS};
pub use crate::gateway::definition_of;
pub use crate::tag_keys::{access_of, tag_name, type_of};
pub use crate::tag_rules::{is_polled, last_bit};
pub use crate::tags::{is_same_side, point_for};
pub use crate::time_tag::is_time;
