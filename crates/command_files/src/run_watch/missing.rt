//! What the scans of a run didn't read, and what they don't show.
use commands::{DEPTH, ScanWatch};
use gateway::{Core, WriteOrder};
use point_types::Items;
use service_alarms::{
    Alarm, Watch, cause_text, mend, missing_now, subject_text, why_hidden, why_missing,
};
use std::alloc::{AllocError, Global};

/// Tells on standard error, at the first scan and at each change, which inputs have no value and which points of the gateway
/// don't show what they are to.
#[derive(Drop)]
pub struct MissingWatch<'r, R> {
    rt: &'r R,
    alloc: Global,
    quiet: bool,
    /// Room for what is missing.
    missing: Items<Alarm>,
    watch: Watch,
}

impl<'r, R: Eprint> MissingWatch<'r, R> {
    /// Nothing was told yet; where it is quiet, nothing will be.
    pub fn new(rt: &'r R, alloc: Global, quiet: bool) -> MissingWatch<'r, R> {
        MissingWatch {
            rt,
            alloc,
            quiet,
            missing: Items::new(alloc),
            watch: Watch::new(alloc),
        }
    }

    /// Looks what is missing after a scan.
    fn look(&mut self, core: &Core<DEPTH>, scan: u32) -> Result<(), AllocError> {
        missing_now(&mut self.missing, core)?;
        self.watch.see(self.missing.as_slice(), u64::from(scan))
    }

    fn tell_begun(&self, core: &Core<DEPTH>, scan: u32) {
        for alarm in self.watch.changes().begun.as_slice() {
            self.print(missing_note(self.alloc, core, scan, *alarm));
        }
    }

    fn tell_over(&self, core: &Core<DEPTH>, scan: u32) {
        for alarm in self.watch.changes().over.as_slice() {
            self.print(again_note(self.alloc, core, scan, *alarm));
        }
    }

    fn print(&self, note: Result<String, AllocError>) {
        if let Ok(note) = note {
            let _ = self.rt.eprint(note.as_str());
        }
    }
}

impl<R: Eprint> ScanWatch for MissingWatch<'_, R> {
    /// Where memory is refused, the next scan is told of in its place.
    fn scanned(&mut self, core: &Core<DEPTH>, _order: &WriteOrder, scan: u32) {
        if self.quiet {
            return;
        }
        if self.look(core, scan).is_ok() {
            self.tell_begun(core, scan);
            self.tell_over(core, scan);
        }
    }
}

/// `scan K: NAME is missing: CAUSE (WHY)`, and below it what to do.
fn missing_note(
    alloc: Global,
    core: &Core<DEPTH>,
    scan: u32,
    alarm: Alarm,
) -> Result<String, AllocError> {
    let name = subject_text(alloc, core.site(), alarm)?;
    let cause = cause_text(alloc, core.site(), alarm)?;
    let why = why(alloc, core, alarm)?;
    let help = mend(alloc, core, alarm)?;
    let mut note = format!(in alloc; "scan {scan}: {name} is missing: {cause} ({why})\n")?;
    if !help.is_empty() {
        note.push_str("  help: ")?;
        note.push_str(help.as_str())?;
        note.push_str("\n")?;
    }
    Ok(note)
}

/// Why an input or a point is missing.
fn why(alloc: Global, core: &Core<DEPTH>, alarm: Alarm) -> Result<String, AllocError> {
    match alarm {
        Alarm::InputMissing(tag, cause) => match core.site().tags().get(tag) {
            Some(tag) => why_missing(alloc, core, tag, cause),
            None => Ok(String::new(alloc)),
        },
        Alarm::SumHidden(_, cause) | Alarm::StoredHidden(_, cause) => {
            why_hidden(alloc, core.site(), alarm, cause)
        }
        _ => Ok(String::new(alloc)),
    }
}

/// `scan K: NAME is there again`.
fn again_note(
    alloc: Global,
    core: &Core<DEPTH>,
    scan: u32,
    alarm: Alarm,
) -> Result<String, AllocError> {
    let name = subject_text(alloc, core.site(), alarm)?;
    let note = format!(in alloc; "scan {scan}: {name} is there again\n")?;
    Ok(note)
}
