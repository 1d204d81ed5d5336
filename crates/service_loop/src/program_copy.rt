//! The file in which the program that was accepted last is kept, over the time of a service.
use crate::keeping::KeptState;
use crate::replacing::{holds, replace_for_good};
use service_texts::{WriteRecord, kept_program_text, program_path};
use std::alloc::Global;
use std::io;
use std::rt::Files;

/// The file in which the program that was accepted last is kept: the one that runs. A start whose own program isn't accepted
/// runs that.
#[derive(Drop)]
pub(crate) struct ProgramCopy<'a> {
    /// The path of the file of set values, beside which it stands.
    state: &'a str,
    /// The program that runs from the start.
    first: &'a str,
    writes: WriteRecord,
    /// Whether it is to be looked at, and written where it holds another program.
    is_due: bool,
}

impl<'a> ProgramCopy<'a> {
    /// The file beside that of set values, which may hold any program.
    pub(crate) fn new(state: &KeptState<'a, '_>) -> ProgramCopy<'a> {
        ProgramCopy {
            state: state.path,
            first: state.program,
            writes: WriteRecord::new(),
            is_due: true,
        }
    }

    /// A scan is over: a write that failed is tried once more.
    pub(crate) fn scanned(&mut self) {
        if self.writes.has_failed() {
            self.is_due = true;
        }
    }

    /// Another program runs from now on.
    pub(crate) fn take_program(&mut self) {
        self.is_due = true;
    }

    /// Writes the file, where another program runs than it may hold: `taken`, or the one of the start where none was taken
    /// since. Gives the word by which it is told that it can't be written, or can again.
    pub(crate) fn keep<R: Files>(
        &mut self,
        rt: &R,
        alloc: Global,
        taken: Option<&str>,
    ) -> Option<&'static str> {
        if !self.is_due {
            return None;
        }
        self.is_due = false;
        let kept = match taken {
            Some(program) => keep_program(rt, alloc, self.state, program),
            None => keep_program(rt, alloc, self.state, self.first),
        };
        self.writes.note(kept.is_ok())
    }
}

// Has the file beside that of set values hold a program. It is written only where it holds something else.
fn keep_program<R: Files>(rt: &R, alloc: Global, state: &str, program: &str) -> io::Result<()> {
    let path = program_path(alloc, state)?;
    let text = kept_program_text(alloc, program)?;
    match holds(rt, alloc, path.as_str(), text.as_str()) {
        Ok(true) => Ok(()),
        _ => replace_for_good(rt, alloc, path.as_str(), text.as_bytes()),
    }
}
