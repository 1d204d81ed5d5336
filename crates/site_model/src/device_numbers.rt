//! The devices of a site by their names.
ghost use Rattle.std.specs.Prelude.{IfOk};
ghost use Rattle.name_places.specs.Places.{IsPlaced};
ghost use Rattle.site_model.specs.Tagging.{is_device_named};

use crate::device::SiteDevice;
use name_places::{Places, note};
use std::alloc::{AllocError, Global};

/// The number of each device by its name, in the order of the file.
pub(crate) fn device_numbers<'a>(
    alloc: Global,
    devices: &'a [SiteDevice],
) -> Result<Places<'a>, AllocError>
    ensures { IfOk result (λ numbers. IsPlaced is_device_named devices.now numbers.entries) }
{
    let mut numbers = Places::new(alloc);
    for (number, device) in devices.iter().enumerate() {
        note(&mut numbers, device.name.as_str(), number)?;
    }
    Ok(numbers)
}
