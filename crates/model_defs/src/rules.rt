//! The rules of model definitions one by one, for whoever tells which of them a text breaks.
pub use crate::point_object::{kind_named, whole_number};
