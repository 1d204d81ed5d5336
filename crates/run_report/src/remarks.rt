//! What is said of a line above and below its chart.
use crate::amounts::{push_amount, push_amounts};
use crate::axis::extent_of;
use crate::marks::{Set, push_scan_range};
use crate::recorded::{Role, ScanSeries};
use crate::sheet::Sheet;
use crate::spans::FaultSpan;
use std::alloc::Global;

/// How many marks of a kind are told below a chart.
const MOST: usize = 4;

/// Appends a line's name, the least and the greatest of its numbers, and its range.
pub(crate) fn push_caption(page: &mut Sheet, alloc: Global, series: &ScanSeries) {
    page.push("<b>");
    page.push_html(series.name.as_str());
    page.push("</b> ");
    page.push(role_words(series.role));
    push_extent(page, alloc, series);
    page.push("; may be ");
    push_amounts(page, alloc, series, series.low, series.high);
}

fn role_words(role: Role) -> &'static str {
    match role {
        Role::Input => "read from a device",
        Role::Setting => "set by clients",
        Role::Time => "time since the scan before",
        Role::Output => "written to a device",
        Role::Shown => "read by clients",
        Role::Variable => "kept from scan to scan",
        Role::Steps => "taken in each scan",
    }
}

fn push_extent(page: &mut Sheet, alloc: Global, series: &ScanSeries) {
    let Some(all) = extent_of(series.samples.as_slice()) else {
        page.push("; never had a number");
        return;
    };
    page.push("; was ");
    push_amounts(page, alloc, series, all.low, all.high);
}

/// Appends when clients set a line, and when it was missing or not written; with its name, where there is one.
pub(crate) fn push_remarks(
    page: &mut Sheet,
    alloc: Global,
    series: &ScanSeries,
    name: &str,
    sets: &[Set],
    spans: &[FaultSpan],
) {
    if sets.is_empty() && spans.is_empty() {
        return;
    }
    page.push("<ul>\n");
    push_set_remarks(page, alloc, series, sets);
    push_span_remarks(page, name, spans);
    page.push("</ul>\n");
}

fn push_set_remarks(page: &mut Sheet, alloc: Global, series: &ScanSeries, sets: &[Set]) {
    for set in sets.iter().take(MOST) {
        let scan = set.scan;
        page.push("<li class=\"set\">set to ");
        push_amount(page, alloc, series, set.number);
        page.say(format_args!(" in scan {scan}</li>\n"));
    }
    push_more(page, "set", sets.len());
}

fn push_span_remarks(page: &mut Sheet, name: &str, spans: &[FaultSpan]) {
    for span in spans.iter().take(MOST) {
        push_span_remark(page, name, *span);
    }
    push_more(page, "more", spans.len());
}

fn push_span_remark(page: &mut Sheet, name: &str, span: FaultSpan) {
    let (class, words, cause) = (span.wrong.class(), span.wrong.words(), span.cause);
    page.say(format_args!("<li class=\"{class}\">"));
    if !name.is_empty() {
        page.push_html(name);
        page.push(", ");
    }
    push_scan_range(page, span.first, span.last);
    page.say(format_args!(": {words} ({cause})</li>\n"));
}

/// Appends how many more marks there are than are told.
fn push_more(page: &mut Sheet, class: &str, count: usize) {
    match count.saturating_sub(MOST) {
        0 => {}
        more => page.say(format_args!("<li class=\"{class}\">and {more} times more</li>\n")),
    }
}
