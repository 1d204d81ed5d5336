//! Who looks whether a service is to run another program.
use service::Service;
use service_texts::Start;
use std::rt::Files;
use std::time::Clock;

/// Why another program doesn't run.
#[derive(Drop)]
pub enum ProgramRefusal {
    /// It isn't accepted, or its file can't be read: the words that `check` prints of it.
    Cause(String),
    /// Memory was refused.
    Memory,
}

impl ProgramRefusal {
    /// Its words, as they are told.
    pub(crate) fn words(&self) -> &str {
        match self {
            ProgramRefusal::Cause(words) => words.as_str(),
            ProgramRefusal::Memory => "memory",
        }
    }
}

/// What came of a look.
#[derive(Drop)]
pub enum Looked {
    /// Nothing that is told.
    Same,
    /// Another program was refused before, and now there is none but the one that runs.
    Settled,
    /// Another program is refused: the one that runs goes on.
    Refused(ProgramRefusal),
    /// Another program runs from the next scan on, with so many instructions in a scan at most.
    Taken(u32),
}

/// Looks whether another program is to run in place of the one that does.
pub trait ProgramWatch {
    /// What is told of the program that was taken last; None where none was since the start.
    fn taken(&self) -> Option<&Start>;

    /// The text of the program that was taken last; None where none was since the start.
    fn taken_text(&self) -> Option<&str>;

    /// What those who look are told of the program that was taken last, as JSON; None where none was since the start.
    fn taken_listing(&self) -> Option<&str>;

    /// When it looks next, in milliseconds since the start; None where it never does.
    fn looks_at(&self) -> Option<u64>;

    /// Looks, where it is time, and puts another program that is accepted in for the one that runs. `now` is in milliseconds
    /// since the start.
    fn look<R: Files + Clock + AllocGlobal>(
        &mut self,
        rt: &R,
        now: u64,
        service: &mut Service,
    ) -> Looked;

    /// Explains on standard error what the last look refused, or warns of what it took.
    fn explain<R: Eprint + AllocGlobal>(&self, rt: &R, service: &Service);
}

/// Nobody looks: the program of the start runs to the end.
#[derive(Drop)]
pub struct OneProgram;

impl ProgramWatch for OneProgram {
    fn taken(&self) -> Option<&Start> {
        None
    }

    fn taken_text(&self) -> Option<&str> {
        None
    }

    fn taken_listing(&self) -> Option<&str> {
        None
    }

    fn looks_at(&self) -> Option<u64> {
        None
    }

    fn look<R: Files + Clock + AllocGlobal>(
        &mut self,
        _rt: &R,
        _now: u64,
        _service: &mut Service,
    ) -> Looked {
        Looked::Same
    }

    fn explain<R: Eprint + AllocGlobal>(&self, _rt: &R, _service: &Service) {}
}
