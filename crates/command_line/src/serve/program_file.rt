//! The program's file, looked at while a service runs its program.
use crate::serve::last_program::RefusedText;
use crate::serve::refused_words::{cause_words, file_words};
use crate::words::version;
use command_files::{SourceFault, program_text, read_again, warn_of_names};
use commands::{CommandOutcome, CommandRefusal, DEPTH, accept_program};
use gateway::CoreFault;
use point_types::Name;
use refusal_notes::{FileFault, Notes, explain_unusable};
use served_site::replace_program;
use service::Service;
use service_loop::{Looked, ProgramRefusal, ProgramWatch, seconds_of_day};
use service_texts::Start;
use site_model::Site;
use std::alloc::{AllocError, Global};
use std::rt::Files;
use std::time::Clock;
use verifier::Verified;

/// From one look to the next, in milliseconds.
const BETWEEN: u64 = 1000;

/// The program's file. What it has counts once two looks in a row found the same, and is judged once, or until there is memory
/// for that.
#[derive(Drop)]
pub(crate) struct ProgramFile<'n> {
    alloc: Global,
    /// The files of the site, the program and the definitions as they were read at the start, and whether a refusal is
    /// explained.
    notes: Notes<'n>,
    /// The names of the variables that are kept.
    names: &'n [Name],
    /// When it is looked at next, in milliseconds since the start.
    looks_at: u64,
    /// What the last look found.
    seen: Option<Sight>,
    /// What was refused since a program was taken, or since the start, and isn't settled.
    refused: Option<Sight>,
    /// Whether that was for want of memory: then it is judged again at each look.
    lacked_memory: bool,
    /// The text of the program that was taken last, and what is told of it; none where it is that of the start.
    runs: Option<Sight>,
    taken: Option<Start>,
    /// Whether somebody may look, and what those are told of the program that was taken last.
    shows: bool,
    listing: Option<String>,
    /// What can be explained of the last judgement.
    known: KnownFile,
}

/// What a look finds.
#[derive(Drop)]
enum Sight {
    Text(String),
    /// There is none, for this cause.
    NoText(SourceFault),
}

/// What can be explained of a judgement.
#[derive(Drop)]
enum KnownFile {
    Nothing,
    /// Why the text that was refused last isn't accepted.
    Cause(Option<CommandRefusal>),
    /// Why there is no text.
    NoText(FileFault),
    /// The program that runs was taken.
    Taken,
}

impl ProgramWatch for ProgramFile<'_> {
    fn taken(&self) -> Option<&Start> {
        match &self.taken {
            Some(start) => Some(start),
            None => None,
        }
    }

    fn taken_text(&self) -> Option<&str> {
        match &self.runs {
            Some(Sight::Text(text)) => Some(text.as_str()),
            _ => None,
        }
    }

    fn taken_listing(&self) -> Option<&str> {
        match &self.listing {
            Some(listing) => Some(listing.as_str()),
            None => None,
        }
    }

    fn looks_at(&self) -> Option<u64> {
        Some(self.looks_at)
    }

    fn look<R: Files + Clock + AllocGlobal>(
        &mut self,
        rt: &R,
        now: u64,
        service: &mut Service,
    ) -> Looked {
        if now < self.looks_at {
            return Looked::Same;
        }
        self.looks_at = now.saturating_add(BETWEEN);
        self.look_again(rt, service)
    }

    fn explain<R: Eprint + AllocGlobal>(&self, rt: &R, service: &Service) {
        match &self.known {
            KnownFile::Nothing => {}
            KnownFile::Cause(cause) => self.explain_cause(rt, cause, service.core().site()),
            KnownFile::NoText(fault) => self.explain_file(rt, *fault),
            KnownFile::Taken => self.warn(rt, service),
        }
    }
}

impl<'n> ProgramFile<'n> {
    /// The file, whose text runs from the start; or another one does, since this is what the file had then, and was refused.
    /// Nothing was looked at yet.
    pub(crate) fn new(
        alloc: Global,
        notes: &Notes<'n>,
        names: &'n [Name],
        refused: Option<RefusedText<'_>>,
        shows: bool,
    ) -> Result<ProgramFile<'n>, AllocError> {
        let refused = match refused {
            Some(found) => Some(refused_sight(alloc, found)?),
            None => None,
        };
        Ok(ProgramFile {
            alloc,
            notes: *notes,
            names,
            looks_at: 0,
            seen: None,
            refused,
            lacked_memory: false,
            runs: None,
            taken: None,
            shows,
            listing: None,
            known: KnownFile::Nothing,
        })
    }

    fn look_again<R: Files + Clock + AllocGlobal>(
        &mut self,
        rt: &R,
        service: &mut Service,
    ) -> Looked {
        let sight = sight_of(rt, self.alloc, self.notes.program_path);
        if !is_it(&self.seen, &sight) {
            self.seen = Some(sight);
            return Looked::Same;
        }
        if self.is_running(&sight) {
            return self.settle();
        }
        let is_told = is_it(&self.refused, &sight);
        if is_told && !self.lacked_memory {
            return Looked::Same;
        }
        let looked = self.judge(rt, &sight, service);
        self.keep(&looked, sight);
        // a want of memory that goes on is told once
        if is_told && self.lacked_memory {
            Looked::Same
        } else {
            looked
        }
    }

    /// Whether this is the text that runs.
    fn is_running(&self, sight: &Sight) -> bool {
        match &self.runs {
            Some(runs) => is_same(runs, sight),
            None => is_text(sight, self.notes.program),
        }
    }

    /// The file has the text that runs.
    fn settle(&mut self) -> Looked {
        if self.refused.is_none() {
            return Looked::Same;
        }
        self.refused = None;
        Looked::Settled
    }

    /// Keeps what was judged.
    fn keep(&mut self, looked: &Looked, sight: Sight) {
        self.lacked_memory = matches!(looked, Looked::Refused(ProgramRefusal::Memory));
        match looked {
            Looked::Refused(_) => self.refused = Some(sight),
            Looked::Taken(_) => {
                self.refused = None;
                self.runs = Some(sight);
            }
            Looked::Same | Looked::Settled => {}
        }
    }

    fn judge<R: Files + Clock + AllocGlobal>(
        &mut self,
        rt: &R,
        sight: &Sight,
        service: &mut Service,
    ) -> Looked {
        match sight {
            Sight::Text(text) => self.judge_text(rt, text.as_str(), service),
            Sight::NoText(fault) => Looked::Refused(self.unread(*fault)),
        }
    }

    /// Why there is no text.
    fn unread(&mut self, fault: SourceFault) -> ProgramRefusal {
        match fault {
            SourceFault::OutOfMemory => {
                self.known = KnownFile::Nothing;
                ProgramRefusal::Memory
            }
            SourceFault::Unusable(fault) => {
                self.known = KnownFile::NoText(fault);
                refusal_for(file_words(self.alloc, self.notes.program_path))
            }
        }
    }

    fn judge_text<R: Files + Clock + AllocGlobal>(
        &mut self,
        rt: &R,
        text: &str,
        service: &mut Service,
    ) -> Looked {
        self.known = KnownFile::Nothing;
        let seconds = seconds_of_day(rt);
        match Start::of(self.alloc, seconds, version(), self.notes.site.text(), text) {
            Ok(start) => self.judge_from(text, start, service),
            Err(AllocError) => Looked::Refused(ProgramRefusal::Memory),
        }
    }

    /// Judges a text, for the site that is served, of which this is told where it is taken.
    fn judge_from(&mut self, text: &str, start: Start, service: &mut Service) -> Looked {
        match accept_program(self.alloc, service.core().site(), text) {
            Ok(Ok(verified)) => self.take(text, verified, start, service),
            Ok(Err(outcome)) => self.refuse(outcome),
            Err(AllocError) => Looked::Refused(ProgramRefusal::Memory),
        }
    }

    fn refuse(&mut self, outcome: CommandOutcome) -> Looked {
        let words = cause_words(self.alloc, &outcome);
        self.known = KnownFile::Cause(outcome.cause);
        Looked::Refused(refusal_for(words))
    }

    /// Puts an accepted program in.
    fn take(
        &mut self,
        text: &str,
        verified: Verified<DEPTH>,
        start: Start,
        service: &mut Service,
    ) -> Looked {
        let Ok(listing) = self.listing_for(text, service.core().site(), &verified) else {
            return Looked::Refused(ProgramRefusal::Memory);
        };
        let budget = verified.budget();
        match replace_program(self.alloc, service, verified) {
            Ok(()) => {
                self.taken = Some(start);
                self.listing = listing;
                self.known = KnownFile::Taken;
                Looked::Taken(budget)
            }
            Err(fault) => Looked::Refused(refusal_by(self.alloc, fault)),
        }
    }

    /// What those who look are told of a program, where somebody may look.
    fn listing_for(
        &self,
        text: &str,
        site: &Site,
        verified: &Verified<DEPTH>,
    ) -> Result<Option<String>, AllocError> {
        if !self.shows {
            return Ok(None);
        }
        let path = self.notes.program_path;
        let listing = program_text(self.alloc, path, text, site, verified)?;
        Ok(Some(listing))
    }

    fn explain_cause<R: Eprint + AllocGlobal>(
        &self,
        rt: &R,
        cause: &Option<CommandRefusal>,
        site: &Site,
    ) {
        if let Some(Sight::Text(text)) = &self.refused {
            let notes = Notes {
                program: text.as_str(),
                ..self.notes
            };
            notes.explain_for(rt, cause, Some(site));
        }
    }

    fn explain_file<R: Eprint + AllocGlobal>(&self, rt: &R, fault: FileFault) {
        if !self.notes.quiet {
            explain_unusable(rt, self.notes.program_path, fault);
        }
    }

    /// Warns of the program that was taken, as at the start.
    fn warn<R: Eprint + AllocGlobal>(&self, rt: &R, service: &Service) {
        let machine = service.core().machine();
        let vars = machine.verified().image().vars.as_slice();
        warn_of_names(rt, &self.notes, self.names, vars);
    }
}

fn sight_of<R: Files + AllocGlobal>(rt: &R, alloc: Global, path: &str) -> Sight {
    match read_again(rt, alloc, path) {
        Ok(text) => Sight::Text(text),
        Err(fault) => Sight::NoText(fault),
    }
}

/// What was found at the start, and was refused then.
fn refused_sight(alloc: Global, found: RefusedText<'_>) -> Result<Sight, AllocError> {
    match found {
        RefusedText::Text(text) => Ok(Sight::Text(String::from_str(alloc, text)?)),
        RefusedText::NoText(fault) => Ok(Sight::NoText(SourceFault::Unusable(fault))),
    }
}

/// Whether what was found before is just this.
fn is_it(before: &Option<Sight>, sight: &Sight) -> bool {
    match before {
        Some(before) => is_same(before, sight),
        None => false,
    }
}

fn is_same(one: &Sight, other: &Sight) -> bool {
    match one {
        Sight::Text(text) => is_text(other, text.as_str()),
        Sight::NoText(fault) => is_fault(other, *fault),
    }
}

fn is_text(sight: &Sight, text: &str) -> bool {
    match sight {
        Sight::Text(found) => found.as_str() == text,
        Sight::NoText(_) => false,
    }
}

fn is_fault(sight: &Sight, fault: SourceFault) -> bool {
    match sight {
        Sight::Text(_) => false,
        Sight::NoText(found) => is_same_fault(*found, fault),
    }
}

fn is_same_fault(one: SourceFault, other: SourceFault) -> bool {
    match (one, other) {
        (SourceFault::Unusable(one), SourceFault::Unusable(other)) => one == other,
        (SourceFault::OutOfMemory, SourceFault::OutOfMemory) => true,
        _ => false,
    }
}

fn refusal_for(words: Result<String, AllocError>) -> ProgramRefusal {
    match words {
        Ok(words) => ProgramRefusal::Cause(words),
        Err(AllocError) => ProgramRefusal::Memory,
    }
}

fn refusal_by(alloc: Global, fault: CoreFault) -> ProgramRefusal {
    match fault {
        CoreFault::OutOfMemory => ProgramRefusal::Memory,
        _ => refusal_for(core_words(alloc, fault.word())),
    }
}

fn core_words(alloc: Global, word: &str) -> Result<String, AllocError> {
    let text = format!(in alloc; "core {word}")?;
    Ok(text)
}
