//! The powers for which devices are made, as a site file says them in `rated`.
use crate::warnings::line::{device_fault, warn};
use refusal_notes::Notes;
use service_texts::{RatedFault, rated_powers};
use site_model::Site;
use std::alloc::{AllocError, Global};

/// Why it isn't known for which powers devices are made.
pub fn why_no_powers(alloc: Global, site: &Site, fault: RatedFault) -> Result<String, AllocError> {
    match fault {
        RatedFault::NotToml => String::from_str(alloc, "the site is no TOML"),
        RatedFault::BadPower(device) => {
            device_fault(
                alloc,
                site,
                device,
                "has a 'rated' that is no number of watts in 1..1000000000",
            )
        }
        RatedFault::OutOfMemory => Err(AllocError),
    }
}

/// Warns on standard error, beside an acceptance, of what a site file says in `rated` that `serve` would refuse. Where the warning
/// can't be printed, or memory for it is refused, nothing comes of it.
pub(crate) fn warn_of_powers(rt: &(impl Eprint + AllocGlobal), notes: &Notes<'_>, site: &Site) {
    let alloc = rt.alloc();
    if let Err(fault) = rated_powers(alloc, notes.site) {
        if let Ok(why) = why_no_powers(alloc, site, fault) {
            warn(rt, notes, why.as_str(), ": 'serve' refuses it");
        }
    }
}
