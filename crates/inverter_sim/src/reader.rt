//! From the text of a plant file to the plant.

mod device;
mod device_entry;
mod faults;
mod image;
mod keys;
mod layout;
mod values;
mod working;

pub use device::definition_of;
pub(crate) use device::devices_of;
pub(crate) use faults::faults_of;
pub use faults::{MOST_FAULTS, own_key};
pub(crate) use keys::too_long;
pub use keys::{MOST_DEVICES, MOST_MODELS, MOST_UNITS, MOST_WATTS};
pub use values::numbers_of;
