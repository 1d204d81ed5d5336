//! The variables that a site file says in `retain`.
use crate::warnings::line::warn;
use commands::Accepted;
use point_types::{Name, Var};
use refusal_notes::Notes;
use service_texts::{RetainFault, retained_names};
use std::alloc::{AllocError, Global};

/// The variables of an accepted program.
pub fn variables_of(given: &Accepted) -> &[Var] {
    given.verified.image().vars.as_slice()
}

/// Why it isn't known which variables are kept.
pub fn why_unretained(alloc: Global, fault: RetainFault) -> Result<String, AllocError> {
    match fault {
        RetainFault::NotToml => String::from_str(alloc, "the site is no TOML"),
        RetainFault::NoList => String::from_str(
            alloc,
            "'retain' of the site file is no list of texts",
        ),
        RetainFault::NoName(entry) => {
            let number = entry.saturating_add(1);
            format!(in alloc; "text {number} in 'retain' of the site file is no name of a variable")
        }
        RetainFault::OutOfMemory => Err(AllocError),
    }
}

/// Warns on standard error, beside an acceptance, of what a site file says in `retain` that `serve` would refuse, and of each
/// name there that the program has no variable of. Where the warning can't be printed, or memory for it is refused, nothing
/// comes of it.
pub(crate) fn warn_of_retained(
    rt: &(impl Eprint + AllocGlobal),
    notes: &Notes<'_>,
    given: &Accepted,
) {
    let alloc = rt.alloc();
    match retained_names(alloc, notes.site) {
        Ok(names) => warn_of_names(rt, notes, names.as_slice(), variables_of(given)),
        Err(fault) => {
            if let Ok(why) = why_unretained(alloc, fault) {
                warn(rt, notes, why.as_str(), ": 'serve' refuses it");
            }
        }
    }
}

/// Warns of each name in `retain` that the program has no variable of.
pub fn warn_of_names(
    rt: &(impl Eprint + AllocGlobal),
    notes: &Notes<'_>,
    names: &[Name],
    vars: &[Var],
) {
    if notes.quiet {
        return;
    }
    for name in names {
        if !vars.iter().any(|var| var.name == *name) {
            warn_of_name(rt, notes, name);
        }
    }
}

fn warn_of_name(rt: &(impl Eprint + AllocGlobal), notes: &Notes<'_>, name: &Name) {
    let name = name.as_str();
    if let Ok(what) = format!(in rt.alloc();
        "'retain' names {name}, and the program has no such variable"
    ) {
        warn(rt, notes, what.as_str(), ": nothing is kept of it");
    }
}
