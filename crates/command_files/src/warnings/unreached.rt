//! Warnings of places of devices that `serve` would refuse.
use refusal_notes::{Notes, escaped};
use service_texts::{AddressFault, DeviceSource, addresses_of};
use site_model::Site;
use std::alloc::{AllocError, Global};

/// Warns on standard error of the first device of a site whose place in the site file `serve` would refuse. A site in which
/// the first device has no address is one whose devices are behind one, or in a plant, and nothing is told of it. Where the
/// warning can't be printed, or memory for it is refused, nothing comes of it.
pub(crate) fn warn_of_places(rt: &(impl Eprint + AllocGlobal), notes: &Notes<'_>, site: &Site) {
    let alloc = rt.alloc();
    let Err(fault) = addresses_of(alloc, DeviceSource::BySite, notes.site, site.devices()) else {
        return;
    };
    if let Some((device, why)) = refused_place(fault) {
        if let Ok(line) = warning(alloc, notes.site_path, site, device, why) {
            let _ = rt.eprint(line.as_str());
        }
    }
}

/// Which device's place would be refused, and why.
fn refused_place(fault: AddressFault) -> Option<(usize, &'static str)> {
    match fault {
        AddressFault::NoPort(device) => Some((device, "an 'address' that is no HOST:PORT")),
        AddressFault::BadUnit(device) => { Some((device, "a 'remote_unit' that isn't in 0..255")) }
        AddressFault::Missing(device) if device > 0 => {
            Some((device, "no 'address', as the first one has"))
        }
        AddressFault::Missing(_) | AddressFault::NotToml | AddressFault::OutOfMemory => None,
    }
}

fn warning(
    alloc: Global,
    path: &str,
    site: &Site,
    device: usize,
    why: &str,
) -> Result<String, AllocError> {
    let name = match site.devices().get(device) {
        Some(device) => device.name.as_str(),
        None => "",
    };
    let name = escaped(alloc, name)?;
    let path = escaped(alloc, path)?;
    let line = format!(in alloc;
        "{path}: warning: device '{name}' has {why}: 'serve' refuses it\n"
    )?;
    Ok(line)
}
