//! The rules of plant files one by one, for whoever tells which of them a text breaks.
pub use crate::device_kind::{DeviceKind, kind_named};
pub use crate::reader::{
    MOST_DEVICES, MOST_FAULTS, MOST_MODELS, MOST_UNITS, MOST_WATTS, definition_of, numbers_of,
    own_key,
};
