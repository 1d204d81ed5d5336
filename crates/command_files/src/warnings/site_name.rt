//! What a site is called, as its site file says it in `name`.
use crate::warnings::line::warn;
use refusal_notes::Notes;
use service_texts::{SiteNameFault, site_name};
use std::alloc::{AllocError, Global};

/// Why it isn't known what a site is called.
pub fn why_no_name(alloc: Global, fault: SiteNameFault) -> Result<String, AllocError> {
    let why = match fault {
        SiteNameFault::NotToml => "the site is no TOML",
        SiteNameFault::NoText => "[gateway] has a 'name' that is no text",
        SiteNameFault::BadText => {
            "[gateway] has a 'name' that isn't 1 to 64 bytes, without control characters or a blank at either end"
        }
    };
    String::from_str(alloc, why)
}

/// Warns on standard error, beside an acceptance, of what a site file says in `name` that `serve` would refuse. Where the warning
/// can't be printed, or memory for it is refused, nothing comes of it.
pub(crate) fn warn_of_name(rt: &(impl Eprint + AllocGlobal), notes: &Notes<'_>) {
    if let Err(fault) = site_name(notes.site) {
        if let Ok(why) = why_no_name(rt.alloc(), fault) {
            warn(rt, notes, why.as_str(), ": 'serve' refuses it");
        }
    }
}
