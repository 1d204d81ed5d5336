//! The scans of a run as a page of charts.
ghost use Rattle.std.specs.Prelude.{◌<◌, length};

use crate::files::WriteFault;
use crate::run::PlantRun;
use crate::run_watch::RunLook;
use crate::run_watch::outgoing::outgoing;
use crate::run_watch::set_lines::{Said, Setting};
use crate::run_watch::set_player::LATE;
use crate::run_watch::tag_points::TagPoints;
use crate::run_watch::trace_rows::variables;
use commands::{DEPTH, ScanWatch};
use gateway::{Core, WriteOrder};
use point_types::{Reading, Var};
use refusal_notes::escaped;
use run_report::{Measure, Role, RunFile, RunReport, Sample, ScanSeries, Unset, page_of};
use service_alarms::missing_word;
use service_texts::digits_of;
use site_model::{Access, SiteDevice, SiteTag};
use std::alloc::{AllocError, Global};
use std::io::Write;

/// Why a tag has no number that the program was to store.
const NOT_SET: &str = "NotSet";

/// Records what the scans of a run read, store and write, and writes a page of it once no more come.
#[derive(Drop)]
pub struct Recorder<W: Write + Drop> {
    alloc: Global,
    file: W,
    /// What the definitions say of tags.
    points: TagPoints,
    /// What was recorded.
    report: RunReport,
    /// Whether it has its lines, as from the first scan on.
    has_lines: bool,
    /// The writes that the scans sent, in order.
    sent: Vec<Sent>,
    /// What hindered a record; nothing is recorded after it.
    hindered: Result<(), AllocError>,
}

/// A write: of which line, by its place, and in which scan, counted from 0.
#[derive(Clone, Copy)]
struct Sent {
    line: usize,
    scan: usize,
}

impl<W: Write + Drop> Recorder<W> {
    /// Nothing was recorded yet of a run.
    pub fn new(alloc: Global, run: &PlantRun<'_, '_>, file: W) -> Result<Recorder<W>, AllocError> {
        Ok(Recorder {
            alloc,
            file,
            points: TagPoints::read(alloc, run.notes.defs)?,
            report: report_of(alloc, run)?,
            has_lines: false,
            sent: Vec::new(alloc),
            hindered: Ok(()),
        })
    }

    /// Writes the page, once no more scans come; none where there was no scan. Err: what hindered a record, or this.
    pub fn end(&mut self) -> Result<(), WriteFault> {
        self.hindered?;
        if self.has_lines {
            let page = page_of(self.alloc, &self.report)?;
            self.file.write_all(page.as_bytes())?;
        }
        Ok(())
    }

    fn record(&mut self, core: &Core<DEPTH>, order: &WriteOrder) -> Result<(), AllocError> {
        if !self.has_lines {
            push_lines(self.alloc, &mut self.report, &self.points, core)?;
            self.has_lines = true;
        }
        push_scan(&mut self.report, &mut self.sent, core, order)
    }
}

impl<W: Write + Drop> ScanWatch for Recorder<W> {
    fn scanned(&mut self, core: &Core<DEPTH>, order: &WriteOrder, _scan: u32) {
        if self.hindered.is_ok() {
            self.hindered = self.record(core, order);
        }
    }
}

impl<W: Write + Drop> RunLook for Recorder<W> {
    fn refused(&mut self, write: usize, exception: u8) {
        if let Some(sent) = self.sent.get(write) {
            let cause = refused_word(exception);
            mark_sample(self.report.series.as_mut_slice(), *sent, cause);
        }
    }

    fn unset(&mut self, setting: Setting<'_>, why: &'static str) {
        if self.hindered.is_ok() {
            self.hindered = push_unset(self.alloc, &mut self.report.unset, setting, why);
        }
    }
}

/// Why a number isn't written that a device was told (Modbus Application Protocol V1.1b3, section 7).
fn refused_word(exception: u8) -> &'static str {
    match exception {
        1 => "Refused 1",
        2 => "Refused 2",
        3 => "Refused 3",
        4 => "Refused 4",
        5 => "Refused 5",
        6 => "Refused 6",
        8 => "Refused 8",
        10 => "Refused 10",
        11 => "Refused 11",
        _ => "Refused",
    }
}

/// Records what clients couldn't set.
fn push_unset(
    alloc: Global,
    unset: &mut Vec<Unset>,
    setting: Setting<'_>,
    why: &'static str,
) -> Result<(), AllocError> {
    unset.push(Unset {
        scan: setting.scan,
        name: escaped(alloc, setting.name)?,
        said: match setting.said {
            Said::Number(number) => Some(number),
            Said::Absent => None,
        },
        why,
    })?;
    Ok(())
}

/// What was to be set before scans that don't come.
fn late_unset(
    alloc: Global,
    settings: &[Setting<'_>],
    scans: u32,
) -> Result<Vec<Unset>, AllocError> {
    let mut unset = Vec::new(alloc);
    for setting in settings {
        if setting.scan > scans {
            push_unset(alloc, &mut unset, *setting, LATE)?;
        }
    }
    Ok(unset)
}

/// The report of a run before its first scan.
fn report_of(alloc: Global, run: &PlantRun<'_, '_>) -> Result<RunReport, AllocError> {
    let notes = &run.notes;
    Ok(RunReport {
        site: source(alloc, notes.site_path, notes.site.text())?,
        program: source(alloc, notes.program_path, notes.program)?,
        plant: escaped(alloc, run.plant)?,
        scans: run.pace.scans,
        every: run.pace.every,
        budget: 0,
        steps: line(alloc, "instructions", Role::Steps, (0, 0))?,
        devices: Vec::new(alloc),
        series: Vec::new(alloc),
        unset: late_unset(alloc, run.settings, run.pace.scans)?,
    })
}

/// Appends the devices and the lines of a core's tags and variables, and notes its budget.
fn push_lines(
    alloc: Global,
    report: &mut RunReport,
    points: &TagPoints,
    core: &Core<DEPTH>,
) -> Result<(), AllocError> {
    push_devices(alloc, &mut report.devices, core.site().devices())?;
    push_tags(alloc, &mut report.series, points, core.site().tags())?;
    push_variables(alloc, &mut report.series, variables(core))?;
    report.budget = core.machine().verified().budget();
    report.steps.high = i64::from(report.budget);
    Ok(())
}

fn source(alloc: Global, path: &str, text: &str) -> Result<RunFile, AllocError> {
    Ok(RunFile {
        path: escaped(alloc, path)?,
        digits: digits_of(alloc, text)?,
    })
}

fn push_devices(
    alloc: Global,
    names: &mut Vec<String>,
    devices: &[SiteDevice],
) -> Result<(), AllocError> {
    for device in devices {
        names.push(escaped(alloc, device.name.as_str())?)?;
    }
    Ok(())
}

fn push_tags(
    alloc: Global,
    series: &mut Vec<ScanSeries>,
    points: &TagPoints,
    tags: &[SiteTag],
) -> Result<(), AllocError> {
    for tag in tags {
        series.push(tag_line(alloc, points, tag)?)?;
    }
    Ok(())
}

/// The line of a tag, without numbers.
fn tag_line(alloc: Global, points: &TagPoints, tag: &SiteTag) -> Result<ScanSeries, AllocError> {
    Ok(ScanSeries {
        name: String::from_str(alloc, tag.name.as_str())?,
        role: role_of(tag.access),
        device: tag.device,
        measure: points.measure_of(tag),
        unit: points.unit_of(alloc, tag)?,
        exponent: tag.exponent,
        low: tag.low,
        high: tag.high,
        samples: Vec::new(alloc),
    })
}

fn role_of(access: Access) -> Role {
    match access {
        Access::Input => Role::Input,
        Access::Setting => Role::Setting,
        Access::Time => Role::Time,
        Access::Output => Role::Output,
        Access::Shown => Role::Shown,
    }
}

fn push_variables(
    alloc: Global,
    series: &mut Vec<ScanSeries>,
    vars: &[Var],
) -> Result<(), AllocError> {
    for var in vars {
        let range = (var.low, var.high);
        series.push(line(alloc, var.name.as_str(), Role::Variable, range)?)?;
    }
    Ok(())
}

/// A line that is no tag's, without numbers.
fn line(
    alloc: Global,
    name: &str,
    role: Role,
    range: (i64, i64),
) -> Result<ScanSeries, AllocError> {
    let (low, high) = range;
    Ok(ScanSeries {
        name: String::from_str(alloc, name)?,
        role,
        device: None,
        measure: Measure::Other,
        unit: String::new(alloc),
        exponent: 0,
        low,
        high,
        samples: Vec::new(alloc),
    })
}

/// Records the last scan.
fn push_scan(
    report: &mut RunReport,
    sent: &mut Vec<Sent>,
    core: &Core<DEPTH>,
    order: &WriteOrder,
) -> Result<(), AllocError> {
    let scan = report.steps.samples.len();
    push_tag_samples(&mut report.series, core)?;
    push_variable_samples(&mut report.series, core)?;
    push_sent(sent, core, order, scan)?;
    mark_unwritten(report.series.as_mut_slice(), core, order, scan);
    let steps = Sample::Number(i64::from(core.steps()));
    report.steps.samples.push(steps)?;
    Ok(())
}

fn push_tag_samples(series: &mut [ScanSeries], core: &Core<DEPTH>) -> Result<(), AllocError> {
    for (i, tag) in core.site().tags().iter().enumerate() {
        push_sample(series, i, sample_of(core, i, tag))?;
    }
    Ok(())
}

/// Records the number of each variable, whose lines stand after those of the tags.
fn push_variable_samples(series: &mut [ScanSeries], core: &Core<DEPTH>) -> Result<(), AllocError> {
    let tags = core.site().tags().len();
    for i in 0..variables(core).len() {
        let number = Sample::Number(core.machine().var(i));
        push_sample(series, tags.saturating_add(i), number)?;
    }
    Ok(())
}

fn push_sample(series: &mut [ScanSeries], i: usize, sample: Sample) -> Result<(), AllocError> {
    if let Some(line) = series.get_mut(i) {
        line.samples.push(sample)?;
    }
    Ok(())
}

fn sample_of(core: &Core<DEPTH>, i: usize, tag: &SiteTag) -> Sample {
    match tag.access {
        Access::Input | Access::Setting | Access::Time => read_sample(core, i),
        Access::Output | Access::Shown => stored_sample(core, i),
    }
}

/// What the i-th tag was as the last scan read it.
fn read_sample(core: &Core<DEPTH>, i: usize) -> Sample {
    match core.readings().get(i) {
        Some(Reading::Value(n)) => Sample::Number(*n),
        Some(Reading::Default(n, cause)) => Sample::Default(*n, missing_word(*cause)),
        Some(Reading::Absent(cause)) => Sample::Missing(missing_word(*cause)),
        None => Sample::Missing(""),
    }
}

/// What the last scan stored in the i-th tag.
fn stored_sample(core: &Core<DEPTH>, i: usize) -> Sample {
    match core.outputs().get(i) {
        Some(Some(n)) => Sample::Number(*n),
        _ => Sample::Missing(NOT_SET),
    }
}

/// Records which writes the last scan sent, in the order of their turns.
fn push_sent(
    sent: &mut Vec<Sent>,
    core: &Core<DEPTH>,
    order: &WriteOrder,
    scan: usize,
) -> Result<(), AllocError> {
    for i in order.outputs() {
        if let Some(line) = sent_line(core, *i) {
            sent.push(Sent { line, scan })?;
        }
    }
    Ok(())
}

/// The line of an output that was written in its turn.
fn sent_line(core: &Core<DEPTH>, i: usize) -> Option<usize> {
    let outs = core.site().outs();
    if i >= outs.len() || core.write(i).is_err() {
        return None;
    }
    Some(outs[i])
}

/// Marks what the last scan stored and didn't write.
fn mark_unwritten(series: &mut [ScanSeries], core: &Core<DEPTH>, order: &WriteOrder, scan: usize) {
    let outs = core.site().outs();
    for i in 0..outs.len() {
        if let Err(cause) = outgoing(core, order, i) {
            let line = outs[i];
            mark_sample(series, Sent { line, scan }, cause.word());
        }
    }
}

/// Marks a number that was stored as not written.
fn mark_sample(series: &mut [ScanSeries], write: Sent, cause: &'static str) {
    let Some(line) = series.get_mut(write.line) else {
        return;
    };
    if let Some(sample) = line.samples.get_mut(write.scan) {
        if let Sample::Number(n) = *sample {
            *sample = Sample::Unwritten(n, cause);
        }
    }
}
