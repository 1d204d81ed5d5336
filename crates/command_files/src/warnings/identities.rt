//! What devices must say of themselves, as a site file says it in `serial`, `maker` and `type`.
use crate::warnings::line::{device_fault, warn};
use refusal_notes::Notes;
use service_texts::{IdentityFault, identities_of};
use site_model::Site;
use std::alloc::{AllocError, Global};

/// Why it isn't known what devices must say of themselves.
pub fn why_no_identities(
    alloc: Global,
    site: &Site,
    fault: IdentityFault,
) -> Result<String, AllocError> {
    let (device, key, what) = match fault {
        IdentityFault::NotToml => return String::from_str(alloc, "the site is no TOML"),
        IdentityFault::NoText(device, key) => (device, key, "that is no text"),
        IdentityFault::BadText(device, key) => (
            device,
            key,
            "that isn't 1 to 32 bytes, without control characters or a blank at either end",
        ),
        IdentityFault::OutOfMemory => return Err(AllocError),
    };
    let key = key.word();
    let why = format!(in alloc; "has a '{key}' {what}")?;
    device_fault(alloc, site, device, why.as_str())
}

/// Warns on standard error, beside an acceptance, of what a site file says in `serial`, `maker` and `type` that `serve` would
/// refuse. Where the warning can't be printed, or memory for it is refused, nothing comes of it.
pub(crate) fn warn_of_identities(rt: &(impl Eprint + AllocGlobal), notes: &Notes<'_>, site: &Site) {
    let alloc = rt.alloc();
    if let Err(fault) = identities_of(alloc, notes.site) {
        if let Ok(why) = why_no_identities(alloc, site, fault) {
            warn(rt, notes, why.as_str(), ": 'serve' refuses it");
        }
    }
}
