//! A start by the program that was accepted last, where the one in its file isn't accepted, or isn't had.
use crate::serve::refused_words::{cause_words, file_words};
use command_files::tell_file;
use commands::{CommandOutcome, CommandRefusal};
use refusal_notes::{FileFault, Notes, explain_unusable};
use std::alloc::{AllocError, Global};
use std::io::Write;

/// Why the program in its file doesn't run from the start.
#[derive(Drop)]
pub(crate) enum ProgramFault {
    /// Its text isn't had.
    Unread(FileFault),
    /// It isn't accepted.
    Refused(CommandOutcome),
}

/// What the file of a program has that doesn't run from the start, as it was read for that.
#[derive(Clone, Copy)]
pub enum RefusedText<'a> {
    Text(&'a str),
    NoText(FileFault),
}

impl ProgramFault {
    /// Whether another program may do: the site and the definitions aren't what is refused.
    pub(crate) fn is_of_program(&self) -> bool {
        match self {
            ProgramFault::Unread(_) => true,
            ProgramFault::Refused(outcome) => match &outcome.cause {
                Some(CommandRefusal::Definition(_)) => false,
                Some(CommandRefusal::Site(_, _)) => false,
                _ => true,
            },
        }
    }

    /// Tells that the start is refused for it, explains it, and gives the status.
    pub(crate) fn refuse<R: Eprint + AllocGlobal, W: Write>(
        &self,
        rt: &R,
        alloc: Global,
        notes: &Notes<'_>,
        out: &mut W,
    ) -> u8 {
        let status = match self {
            ProgramFault::Unread(_) => tell_file(alloc, notes.program_path, out),
            ProgramFault::Refused(outcome) => outcome.tell(out),
        };
        self.explain(rt, notes);
        status
    }

    /// Explains it on standard error.
    pub(crate) fn explain<R: Eprint + AllocGlobal>(&self, rt: &R, notes: &Notes<'_>) {
        match self {
            ProgramFault::Unread(fault) => {
                if !notes.quiet {
                    explain_unusable(rt, notes.program_path, *fault);
                }
            }
            ProgramFault::Refused(outcome) => notes.explain(rt, &outcome.cause),
        }
    }

    /// Its words, as they are told.
    pub(crate) fn words(&self, alloc: Global, notes: &Notes<'_>) -> Result<String, AllocError> {
        match self {
            ProgramFault::Unread(_) => file_words(alloc, notes.program_path),
            ProgramFault::Refused(outcome) => cause_words(alloc, outcome),
        }
    }

    /// What the file has, whose text the notes are on where it is had.
    pub(crate) fn text<'n>(&self, notes: &Notes<'n>) -> RefusedText<'n> {
        match self {
            ProgramFault::Unread(fault) => RefusedText::NoText(*fault),
            ProgramFault::Refused(_) => RefusedText::Text(notes.program),
        }
    }
}
