//! The file of set values and variables, over the time of a service.
ghost use Rattle.std.specs.Prelude.{◌≡◌, length, IfOk, IsTrue};

use crate::keeping::KeptState;
use crate::replacing::replace_for_good;
use gateway::{Core, DEPTH, has_lapsed};
use point_types::{Name, Var};
use service_texts::{
    RetainPace, WriteRecord, aged_settings, aged_text, is_among, lasting_settings, state_text,
    variables_text,
};
use std::alloc::{AllocError, Global};
use std::io;
use std::rt::Files;

/// The shortest time in which the ages of set values alone have the file written anew, in milliseconds.
const LEAST: u64 = 10_000;

/// The file of set values and variables.
#[derive(Drop)]
pub(crate) struct StateFile<'a> {
    path: &'a str,
    /// The names of the variables that are kept.
    retained: &'a [Name],
    /// What was set when the file was written last, or was to be.
    tried: Vec<Option<i64>>,
    /// The numbers that the variables had then; None of those that aren't kept.
    variables: Vec<Option<i64>>,
    pace: RetainPace,
    /// When the file was written last, or was to be, in milliseconds since the start.
    written_at: u64,
    writes: WriteRecord,
    /// Whether it is to be written once more, though nothing was set since.
    is_due: bool,
}

impl<'a> StateFile<'a> {
    /// The file of a core, which needn't be written before something else is set or kept than now, or a set value has grown
    /// older; it is written at once where it had one that lapsed since.
    pub(crate) fn new(
        alloc: Global,
        state: &KeptState<'a, '_>,
        core: &Core<DEPTH>,
    ) -> Result<StateFile<'a>, AllocError>
        ensures { IfOk result (λ file. file.tried.items ≡ core.now.standing.sets) }
    {
        let settings = core.settings();
        let mut tried = Vec::with_capacity(alloc, settings.len())?;
        tried.extend_from_slice(settings)?;
        Ok(StateFile {
            path: state.path,
            retained: state.retained,
            tried,
            variables: numbers(alloc, core, state.retained)?,
            pace: RetainPace::new(),
            written_at: 0,
            writes: WriteRecord::new(),
            is_due: has_any_lapsed(core),
        })
    }

    /// Whether its last write failed.
    pub(crate) fn has_failed(&self) -> bool {
        self.writes.has_failed()
    }

    /// A scan is over: a write that failed is tried once more.
    pub(crate) fn scanned(&mut self) {
        self.is_due = self.writes.has_failed();
    }

    /// Another program runs from now on: where variables are kept, the file is written at once with those that it has.
    pub(crate) fn take_program(&mut self) {
        if !self.retained.is_empty() {
            self.is_due = true;
        }
    }

    /// Writes the file, where something was set since, where a variable changed and that may be written now, where it says for
    /// too long how old a set value is, or where it is to be tried once more: from then on what is set is what was tried to be written. `now` is in milliseconds since the start.
    /// Gives the word by which it is told that it can't be written, or can again.
    pub(crate) fn keep<R: Files>(
        &mut self,
        rt: &R,
        alloc: Global,
        core: &Core<DEPTH>,
        now: u64,
    ) -> Option<&'static str>
        ensures { length self.old.tried.items ≡ length core.now.standing.sets → self.new.tried.items ≡ core.now.standing.sets }
    {
        if !self.is_due && self.is_as_tried(core.settings()) && !self.has_aged(core, now) {
            return None;
        }
        self.is_due = false;
        self.try_with(core.settings());
        let is_written = self.write(rt, alloc, core, now).is_ok();
        self.writes.note(is_written)
    }

    fn is_as_tried(&self, settings: &[Option<i64>]) -> bool
        ensures { IsTrue result → self.now.tried.items ≡ settings.now }
    {
        self.tried.as_slice() == settings
    }

    fn try_with(&mut self, settings: &[Option<i64>])
        ensures { length self.old.tried.items ≡ length settings.now → self.new.tried.items ≡ settings.now }
    {
        if self.tried.len() == settings.len() {
            self.tried.copy_from_slice(settings);
        }
    }

    /// Whether a variable or the age of a set value is to be written anew, though nothing else was set.
    fn has_aged(&self, core: &Core<DEPTH>, now: u64) -> bool {
        self.wants_variables(core, now) || self.wants_ages(core, now)
    }

    /// Whether a set value that lapses has grown older by a tenth of its time since the file was written, and by ten seconds.
    fn wants_ages(&self, core: &Core<DEPTH>, now: u64) -> bool {
        match shortest_lapse(core) {
            Some(seconds) => {
                let tenth = u64::from(seconds) * 100;
                now.saturating_sub(self.written_at) >= tenth.max(LEAST)
            }
            None => false,
        }
    }

    /// Whether a variable that is kept has another number than when the file was written last, and may be written now.
    fn wants_variables(&self, core: &Core<DEPTH>, now: u64) -> bool {
        self.pace.is_due(now) && has_changed(core, self.variables.as_slice())
    }

    fn write<R: Files>(
        &mut self,
        rt: &R,
        alloc: Global,
        core: &Core<DEPTH>,
        now: u64,
    ) -> io::Result<()>
        ensures { self.new.tried.items ≡ self.old.tried.items }
    {
        self.pace.written(now);
        self.written_at = now;
        self.variables = numbers(alloc, core, self.retained)?;
        let mut text = settings_text(alloc, core)?;
        let kept = variables_text(alloc, variables(core), self.variables.as_slice())?;
        text.extend_from_slice(kept.as_slice())?;
        replace_for_good(rt, alloc, self.path, text.as_slice())
    }
}

/// The lines of what is set: first what never lapses, then what does, with its ages.
fn settings_text(alloc: Global, core: &Core<DEPTH>) -> Result<Vec<u8>, AllocError> {
    let tags = core.site().tags();
    let lasting = lasting_settings(alloc, tags, core.settings())?;
    let mut text = state_text(alloc, tags, lasting.as_slice())?;
    let aged = aged_settings(alloc, tags, core.settings(), core.ages())?;
    let ages = aged_text(alloc, aged.as_slice())?;
    text.extend_from_slice(ages.as_slice())?;
    Ok(text)
}

/// Whether a set value has lapsed.
fn has_any_lapsed(core: &Core<DEPTH>) -> bool {
    for (tag, age) in core.site().tags().iter().zip(core.ages()) {
        if has_lapsed(tag.lapse, *age) {
            return true;
        }
    }
    false
}

/// Of the set values that lapse the shortest time in which one does, in seconds.
fn shortest_lapse(core: &Core<DEPTH>) -> Option<u32> {
    let mut shortest = None;
    for (tag, setting) in core.site().tags().iter().zip(core.settings()) {
        if setting.is_some() {
            shortest = shorter(shortest, tag.lapse);
        }
    }
    shortest
}

fn shorter(one: Option<u32>, other: Option<u32>) -> Option<u32> {
    match (one, other) {
        (Some(one), Some(other)) => Some(one.min(other)),
        (one, None) => one,
        (None, other) => other,
    }
}

/// The variables of the program that a core runs.
pub(crate) fn variables(core: &Core<DEPTH>) -> &[Var]
    ensures { result.now ≡ core.now.machine.accepted.image.vars }
{
    core.machine().verified().image().vars.as_slice()
}

/// The numbers of the variables, an entry for each in their order; None of those that aren't among the names.
fn numbers(
    alloc: Global,
    core: &Core<DEPTH>,
    names: &[Name],
) -> Result<Vec<Option<i64>>, AllocError> {
    let mut numbers = Vec::new(alloc);
    for (i, var) in variables(core).iter().enumerate() {
        let number = if is_among(names, var) {
            Some(core.machine().var(i))
        } else {
            None
        };
        numbers.push(number)?;
    }
    Ok(numbers)
}

/// Whether a variable that is kept has another number than one of these, an entry for each variable in their order.
fn has_changed(core: &Core<DEPTH>, numbers: &[Option<i64>]) -> bool {
    for i in 0..variables(core).len() {
        if let Some(Some(number)) = numbers.get(i) {
            if core.machine().var(i) != *number {
                return true;
            }
        }
    }
    false
}
