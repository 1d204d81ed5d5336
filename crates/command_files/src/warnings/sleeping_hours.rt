//! The hours for which devices sleep, as a site file says them in `sleeps`.
use crate::warnings::line::{device_fault, warn};
use refusal_notes::Notes;
use service_texts::{SleepFault, sleeping_hours};
use site_model::Site;
use std::alloc::{AllocError, Global};

/// Why it isn't known which devices sleep.
pub fn why_no_hours(alloc: Global, site: &Site, fault: SleepFault) -> Result<String, AllocError> {
    match fault {
        SleepFault::NotToml => String::from_str(alloc, "the site is no TOML"),
        SleepFault::BadHours(device) => {
            device_fault(
                alloc,
                site,
                device,
                "has a 'sleeps' that is no number of hours in 1..24",
            )
        }
        SleepFault::OutOfMemory => Err(AllocError),
    }
}

/// Warns on standard error, beside an acceptance, of what a site file says in `sleeps` that `serve` would refuse. Where the
/// warning can't be printed, or memory for it is refused, nothing comes of it.
pub(crate) fn warn_of_hours(rt: &(impl Eprint + AllocGlobal), notes: &Notes<'_>, site: &Site) {
    let alloc = rt.alloc();
    if let Err(fault) = sleeping_hours(alloc, notes.site) {
        if let Ok(why) = why_no_hours(alloc, site, fault) {
            warn(rt, notes, why.as_str(), ": 'serve' refuses it");
        }
    }
}
