//! What is marked in a chart: when there was no number or it wasn't written, and when a client set one.
use crate::amounts::push_amount;
use crate::axis::Axis;
use crate::coordinates::{BOTTOM, TOP, x_at};
use crate::frame::Side;
use crate::recorded::{Role, Sample, ScanSeries};
use crate::sheet::Sheet;
use crate::spans::FaultSpan;
use std::alloc::{AllocError, Global};

/// The width of a letter of a mark, with room to spare.
const LETTER: u32 = 78;

/// Appends a mark over the whole plot for each span of a line over n scans. Causes of the two lines of a chart
/// don't stand at one height.
pub(crate) fn push_spans(page: &mut Sheet, spans: &[FaultSpan], n: usize, side: Side) {
    for span in spans {
        push_span(page, *span, n, side);
    }
}

fn push_span(page: &mut Sheet, span: FaultSpan, n: usize, side: Side) {
    let x = x_at(span.first.saturating_sub(1), n);
    let (wide, tall) = (x_at(span.last, n).saturating_sub(x), BOTTOM - TOP);
    let (class, words, cause) = (span.wrong.class(), span.wrong.words(), span.cause);
    page.say(format_args!(
        "<rect class=\"{class}\" x=\"{x}\" y=\"{TOP}\" width=\"{wide}\" height=\"{tall}\"><title>"
    ));
    push_scan_range(page, span.first, span.last);
    page.say(format_args!(": {words} ({cause})</title></rect>\n"));
    if !has_room(cause, wide) {
        return;
    }
    let base = match side {
        Side::Left => TOP + 160,
        Side::Right => TOP + 320,
    };
    let middle = x + wide / 2;
    page.say(format_args!(
        "<text class=\"mid cause\" x=\"{middle}\" y=\"{base}\">{cause}</text>\n"
    ));
}

/// Whether a mark has room for its cause.
fn has_room(cause: &str, wide: u32) -> bool {
    let letters = u32::try_from(cause.len()).unwrap_or(u32::MAX);
    letters.saturating_mul(LETTER) <= wide
}

/// Appends `scan 5`, or `scans 5 to 7`.
pub(crate) fn push_scan_range(page: &mut Sheet, first: usize, last: usize) {
    if first == last {
        page.say(format_args!("scan {first}"));
        return;
    }
    page.say(format_args!("scans {first} to {last}"));
}

/// A number that a client set, and the first scan that read it, counted from 1.
#[derive(Clone, Copy)]
pub(crate) struct Set {
    pub number: i64,
    pub scan: usize,
}

/// The numbers that clients set a line to; none of a line that they don't set.
pub(crate) fn sets_of(alloc: Global, series: &ScanSeries) -> Result<Vec<Set>, AllocError> {
    match series.role {
        Role::Setting => changes_of(alloc, series.samples.as_slice()),
        _ => Ok(Vec::new(alloc)),
    }
}

/// The numbers of some samples: each that isn't the one before.
fn changes_of(alloc: Global, samples: &[Sample]) -> Result<Vec<Set>, AllocError> {
    let mut sets = Vec::new(alloc);
    let mut before = None;
    for (i, sample) in samples.iter().enumerate() {
        let now = sample.own_number();
        if let (Some(number), true) = (now, now != before) {
            let scan = i.saturating_add(1);
            sets.push(Set { number, scan })?;
        }
        before = now;
    }
    Ok(sets)
}

/// Appends a mark for each number that a client set.
pub(crate) fn push_sets(
    page: &mut Sheet,
    alloc: Global,
    series: &ScanSeries,
    sets: &[Set],
    n: usize,
    axis: Axis,
) {
    for set in sets {
        push_set(page, alloc, series, *set, n, axis);
    }
}

fn push_set(page: &mut Sheet, alloc: Global, series: &ScanSeries, set: Set, n: usize, axis: Axis) {
    let scan = set.scan;
    let (x, y) = (x_at(scan.saturating_sub(1), n), axis.y_of(set.number));
    page.say(format_args!("<circle class=\"set\" cx=\"{x}\" cy=\"{y}\" r=\"45\"><title>set to "));
    push_amount(page, alloc, series, set.number);
    page.say(format_args!(" in scan {scan}</title></circle>\n"));
}
