//! Warnings beside an acceptance: what clients may not be shown, what of devices `serve` would refuse, and which variables can't
//! be kept.
use crate::warnings::identities::warn_of_identities;
use crate::warnings::rated_powers::warn_of_powers;
use crate::warnings::read_back::warn_of_read_back;
use crate::warnings::retained_names::warn_of_retained;
use crate::warnings::site_name::warn_of_name;
use crate::warnings::sleeping_hours::warn_of_hours;
use crate::warnings::unreached::warn_of_places;
use commands::Accepted;
use refusal_notes::Notes;
use served_notes::{shown_warnings, unfitted_warnings};
use site_model::Site;

/// Warns on standard error of a device's place in an accepted site that `serve` would refuse, of `name`, `retain`, `rated`, `sleeps`,
/// `serial`, `maker`, `type` and `read_back`, and of what clients may not be shown. Where the warnings can't be printed, or memory for
/// them is refused, nothing comes of it.
pub fn warn_beside(rt: &(impl Eprint + AllocGlobal), notes: &Notes<'_>, given: &Accepted) {
    if notes.quiet {
        return;
    }
    warn_of_places(rt, notes, &given.site);
    warn_of_name(rt, notes);
    warn_of_retained(rt, notes, given);
    warn_of_powers(rt, notes, &given.site);
    warn_of_hours(rt, notes, &given.site);
    warn_of_identities(rt, notes, &given.site);
    warn_of_read_back(rt, notes, &given.site);
    warn_on_site(rt, notes, &given.site);
    warn_of_unfitted(rt, notes, &given.site);
}

/// Warns of `out` tags that may go unwritten since nothing is written in place of a number that their point can't say.
fn warn_of_unfitted(rt: &(impl Eprint + AllocGlobal), notes: &Notes<'_>, site: &Site) {
    if let Ok(lines) = unfitted_warnings(rt.alloc(), notes.site_path, site) {
        if !lines.is_empty() {
            let _ = rt.eprint(lines.as_str());
        }
    }
}

/// Warns of what clients may not be shown of a site.
pub fn warn_on_site(rt: &(impl Eprint + AllocGlobal), notes: &Notes<'_>, site: &Site) {
    if notes.quiet {
        return;
    }
    if let Ok(lines) = shown_warnings(rt.alloc(), notes.site_path, site) {
        if !lines.is_empty() {
            let _ = rt.eprint(lines.as_str());
        }
    }
}

/// Warns of what nothing reads in the site file. The simulator that is started warns of the plant file and the definitions.
pub fn warn_of_site(rt: &(impl Eprint + AllocGlobal), notes: &Notes<'_>) {
    let of_site = Notes {
        defs: &[],
        ..*notes
    };
    of_site.warn(rt);
}
