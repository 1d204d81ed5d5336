//! What a service tells, as lines.
use crate::line_writer::LineWriter;
use crate::serving::Serving;
use gateway::{Core, DEPTH, Report};
use note_text::escaped;
use register_map::Map;
use service::{Difference, Identity, Notice, ReadRefusal, Service, Unwritten};
use service_alarms::{
    Changes, Said, Slept, another_text, begun_line, device_name, is_lacking, lacks_text, loss_word,
    output_name, over_line, push_models, refuses_text, shown_number, unwritten_text,
};
use service_texts::{
    Start, agrees_line, device_line, differs_line, lost_line, program_taken_line, unwritten_line,
    written_line,
};
use site_model::{Site, Want};
use std::alloc::{AllocError, Global};
use std::io::Write;

/// The kind of loss of a device that has no map.
const NO_MAP: &str = "NoMap";

/// Tells what happened to a device or an output.
pub(crate) fn tell<W: Write>(
    alloc: Global,
    note: &Notice,
    serving: &Serving<'_>,
    service: &Service,
    line_writer: &mut LineWriter<'_, W>,
) {
    let core = service.core();
    if let Notice::Another(device) = note {
        let identity = serving.identity(*device);
        line_writer.tell(another_line(alloc, service, identity, *device));
    }
    if let Some(line) = line_of(alloc, note, core) {
        line_writer.tell(line);
    }
    if let Notice::Found(device) = note {
        tell_lacking(alloc, core, *device, line_writer);
    }
}

/// Tells which models that the site wants of a device its map lacks.
fn tell_lacking<W: Write>(
    alloc: Global,
    core: &Core<DEPTH>,
    device: usize,
    line_writer: &mut LineWriter<'_, W>,
) {
    for want in core.site().wants() {
        if want.device == device && is_lacking(core.maps(), *want) {
            line_writer.tell(lacks_line(alloc, core.site(), *want));
        }
    }
}

// `device NAME lacks ID`.
fn lacks_line(alloc: Global, site: &Site, want: Want) -> Result<String, AllocError> {
    let what = lacks_text(alloc, want.model)?;
    told(alloc, site, want.device, what.as_str())
}

/// Tells what changed in what is wrong, where no note tells it.
pub(crate) fn tell_changes<W: Write>(
    alloc: Global,
    changes: &Changes,
    core: &Core<DEPTH>,
    line_writer: &mut LineWriter<'_, W>,
) {
    for alarm in changes.begun.as_slice() {
        if let Some(line) = begun_line(alloc, core, *alarm) {
            line_writer.tell(line);
        }
    }
    for alarm in changes.over.as_slice() {
        if let Some(line) = over_line(alloc, core, *alarm) {
            line_writer.tell(line);
        }
    }
}

/// The line of a note, where it has one of its own.
fn line_of(alloc: Global, note: &Notice, core: &Core<DEPTH>) -> Option<Result<String, AllocError>> {
    let site = core.site();
    match note {
        Notice::Found(device) => Some(found_line(alloc, core, *device)),
        Notice::NoMap(device) => Some(lost(alloc, site, *device, NO_MAP)),
        Notice::Lost(device, loss) => Some(lost(alloc, site, *device, loss_word(*loss))),
        Notice::Back(device) => Some(told(alloc, site, *device, "back")),
        Notice::Refused(device, refusal) => Some(refused_line(alloc, site, *device, *refusal)),
        Notice::Unwritten(output, cause) => Some(unwritten(alloc, site, *output, *cause)),
        Notice::Written(output) => Some(written_line(alloc, output_name(site, *output))),
        Notice::Differs(output, difference) => Some(differs(alloc, core, *output, *difference)),
        Notice::Agrees(output) => Some(agrees_line(alloc, output_name(site, *output))),
        Notice::Another(_) | Notice::Late(_) | Notice::Scanned(_) => None,
    }
}

// `device NAME is another SN TEXT`.
fn another_line(
    alloc: Global,
    service: &Service,
    identity: Option<Identity>,
    device: usize,
) -> Result<String, AllocError> {
    let said = Said::of(service.said(device).unwrap_or(&[]));
    let what = another_text(alloc, identity, said)?;
    told(alloc, service.core().site(), device, what.as_str())
}

// `device NAME found MODELS`.
fn found_line(alloc: Global, core: &Core<DEPTH>, device: usize) -> Result<String, AllocError> {
    let models = match core.maps().get(device) {
        Some(Some(map)) => found_models(alloc, map)?,
        _ => String::from_str(alloc, "found")?,
    };
    told(alloc, core.site(), device, models.as_str())
}

// `device NAME WHAT`.
fn told(alloc: Global, site: &Site, device: usize, what: &str) -> Result<String, AllocError> {
    let name = shown_name(alloc, site, device)?;
    device_line(alloc, name.as_str(), what)
}

// `device NAME lost KIND`.
fn lost(alloc: Global, site: &Site, device: usize, kind: &str) -> Result<String, AllocError> {
    let name = shown_name(alloc, site, device)?;
    lost_line(alloc, name.as_str(), kind)
}

/// `device NAME asleep`, or `device NAME overdue`.
pub(crate) fn sleep_line(
    alloc: Global,
    site: &Site,
    device: usize,
    slept: Slept,
) -> Result<String, AllocError> {
    let what = match slept {
        Slept::Asleep => "asleep",
        Slept::Overdue => "overdue",
    };
    told(alloc, site, device, what)
}

/// `device NAME each N rounds`, or `device NAME each round`.
pub(crate) fn pace_line(
    alloc: Global,
    site: &Site,
    device: usize,
    rounds: u64,
) -> Result<String, AllocError> {
    if rounds <= 1 {
        return told(alloc, site, device, "each round");
    }
    let what = format!(in alloc; "each {rounds} rounds")?;
    told(alloc, site, device, what.as_str())
}

// `output NAME unwritten CAUSE`.
fn unwritten(
    alloc: Global,
    site: &Site,
    output: usize,
    cause: Unwritten,
) -> Result<String, AllocError> {
    let cause = unwritten_text(alloc, cause)?;
    unwritten_line(alloc, output_name(site, output), cause.as_str())
}

// `output NAME differs wrote W device V`.
fn differs(
    alloc: Global,
    core: &Core<DEPTH>,
    output: usize,
    difference: Difference,
) -> Result<String, AllocError> {
    let wrote = shown_number(alloc, core, output, difference.wrote)?;
    let shows = shown_number(alloc, core, output, difference.shows)?;
    differs_line(
        alloc,
        output_name(core.site(), output),
        wrote.as_str(),
        shows.as_str(),
    )
}

// `device NAME refuses 3 ADDRESS CODE`.
fn refused_line(
    alloc: Global,
    site: &Site,
    device: usize,
    refusal: ReadRefusal,
) -> Result<String, AllocError> {
    let what = refuses_text(alloc, refusal)?;
    told(alloc, site, device, what.as_str())
}

// The name of a device, with control characters escaped: it may be any text, and can't pass for another line.
fn shown_name(alloc: Global, site: &Site, device: usize) -> Result<String, AllocError> {
    escaped(alloc, device_name(site, device))
}

// `found MODELS`.
fn found_models(alloc: Global, map: &Map) -> Result<String, AllocError> {
    let mut models = String::from_str(alloc, "found")?;
    push_models(alloc, &mut models, map)?;
    Ok(models)
}

/// Tells which program was taken, and the most instructions of a scan.
pub(crate) fn tell_taken<W: Write>(
    alloc: Global,
    start: Option<&Start>,
    budget: u32,
    line_writer: &mut LineWriter<'_, W>,
) {
    if let Some(start) = start {
        line_writer.tell(started_line(alloc, start));
    }
    line_writer.tell(program_taken_line(alloc, budget));
}

// `started TIME sunsite VERSION site HASH program HASH`.
fn started_line(alloc: Global, start: &Start) -> Result<String, AllocError> {
    let line = start.line(alloc)?;
    String::from_str(alloc, line.trim_end())
}

/// The line of a scan, as `run` has it.
pub(crate) fn tell_scan<W: Write>(
    alloc: Global,
    scan: u64,
    report: &Report,
    line_writer: &mut LineWriter<'_, W>,
) {
    line_writer.tell_plain(report.told(alloc, scan));
}
