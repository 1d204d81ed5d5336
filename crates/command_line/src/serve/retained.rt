//! The variables that a service keeps over a restart.
use command_files::variables_of;
use commands::Accepted;
use point_types::{Items, Name};
use refusal_notes::Notes;
use service_loop::{Keeping, KeptState};
use service_texts::{RetainFault, kept_numbers, retained_names};
use std::alloc::Global;

/// Which variables are kept, and what was kept of them.
#[derive(Drop)]
pub(crate) struct Retained {
    /// Their names, by the site file.
    pub names: Items<Name>,
    /// The number that was kept of each of the program's variables, in their order.
    pub kept: Vec<Option<i64>>,
}

impl Retained {
    /// Those of a site and a program that are served, by the file in which they are kept.
    pub(crate) fn of(
        alloc: Global,
        notes: &Notes<'_>,
        keeping: &Keeping<'_, '_>,
        given: &Accepted,
    ) -> Result<Retained, RetainFault> {
        let names = retained_names(alloc, notes.site)?;
        let text = match keeping.state {
            Some(state) => state.text,
            None => "",
        };
        let kept = kept_numbers(alloc, variables_of(given), names.as_slice(), text)?;
        Ok(Retained { names, kept })
    }

    /// The files that are kept, the variables and this program among what is kept.
    pub(crate) fn keeping<'r, 't>(
        &'r self,
        keeping: &Keeping<'r, 't>,
        program: &'r str,
    ) -> Keeping<'r, 't> {
        let state = match keeping.state {
            Some(state) => Some(KeptState {
                retained: self.names.as_slice(),
                program,
                ..state
            }),
            None => None,
        };
        Keeping { state, ..*keeping }
    }
}
