//! Which outputs are compared with what their devices show, as a site file says it in `read_back`.
use crate::warnings::line::{tag_fault, warn};
use refusal_notes::Notes;
use service_texts::{ReadBackFault, read_back_tags};
use site_model::Site;
use std::alloc::{AllocError, Global};

/// Why it isn't known which outputs are compared.
pub fn why_no_read_back(
    alloc: Global,
    site: &Site,
    fault: ReadBackFault,
) -> Result<String, AllocError> {
    match fault {
        ReadBackFault::NotToml => String::from_str(alloc, "the site is no TOML"),
        ReadBackFault::BadReadBack(tag) => {
            tag_fault(
                alloc,
                site,
                tag,
                "has a 'read_back' that is neither true nor false, or is no 'out' tag",
            )
        }
        ReadBackFault::OutOfMemory => Err(AllocError),
    }
}

/// Warns on standard error, beside an acceptance, of what a site file says in `read_back` that `serve` would refuse. Where the
/// warning can't be printed, or memory for it is refused, nothing comes of it.
pub(crate) fn warn_of_read_back(rt: &(impl Eprint + AllocGlobal), notes: &Notes<'_>, site: &Site) {
    let alloc = rt.alloc();
    if let Err(fault) = read_back_tags(alloc, notes.site) {
        if let Ok(why) = why_no_read_back(alloc, site, fault) {
            warn(rt, notes, why.as_str(), ": 'serve' refuses it");
        }
    }
}
