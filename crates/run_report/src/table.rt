//! The table of what happened.
use crate::amounts::push_amount;
use crate::events::{Event, events_of};
use crate::marks::Set;
use crate::numbers::time_of;
use crate::recorded::{RunReport, ScanSeries, Unset};
use crate::sheet::Sheet;
use crate::spans::FaultSpan;
use std::alloc::Global;

/// Appends the table, or that there is nothing in it.
pub(crate) fn push_table(page: &mut Sheet, alloc: Global, report: &RunReport) {
    page.push("<h2 id=\"events\">What happened</h2>\n");
    let events = page.got_list(events_of(alloc, report));
    if events.is_empty() {
        page.push(
            "<p>No client set anything, nothing was missing, and all that the program stored was taken.</p>\n",
        );
        return;
    }
    page.push(
        "<table>\n<thead><tr><th>Scan</th><th>Time</th><th>Name</th><th>What</th><th>Cause</th></tr></thead>\n<tbody>\n",
    );
    for event in events {
        push_row(page, alloc, report, event);
    }
    page.push("</tbody>\n</table>\n");
}

fn push_row(page: &mut Sheet, alloc: Global, report: &RunReport, event: Event<'_>) {
    let (first, last) = (event.first(), event.last());
    let time = page.got(time_of(alloc, first, report.every));
    if first == last {
        page.say(format_args!("<tr><td>{first}</td><td>{time}</td><td>"));
    } else {
        page.say(format_args!("<tr><td>{first} to {last}</td><td>{time}</td><td>"));
    }
    match event {
        Event::Set(series, set) => push_set(page, alloc, series, set),
        Event::Wrong(series, span) => push_span(page, series, span),
        Event::Unset(unset) => push_unset(page, alloc, report, unset),
    }
    page.push("</td></tr>\n");
}

fn push_set(page: &mut Sheet, alloc: Global, series: &ScanSeries, set: Set) {
    page.push_html(series.name.as_str());
    page.push("</td><td class=\"set\">set to ");
    push_amount(page, alloc, series, set.number);
    page.push("</td><td>");
}

fn push_span(page: &mut Sheet, series: &ScanSeries, span: FaultSpan) {
    let (class, words, cause) = (span.wrong.class(), span.wrong.words(), span.cause);
    page.push_html(series.name.as_str());
    page.say(format_args!("</td><td class=\"{class}\">{words}</td><td>{cause}"));
}

fn push_unset(page: &mut Sheet, alloc: Global, report: &RunReport, unset: &Unset) {
    page.push_html(unset.name.as_str());
    page.push("</td><td class=\"unwritten\">not set to ");
    match unset.said {
        Some(number) => push_said(page, alloc, report, unset, number),
        None => page.push("absent"),
    }
    page.push("</td><td>");
    page.push_html(unset.why);
}

/// Appends the number that a client was to set: as those of its line, or as it is where there is no such line.
fn push_said(page: &mut Sheet, alloc: Global, report: &RunReport, unset: &Unset, number: i64) {
    for series in &report.series {
        if series.name.as_str() == unset.name.as_str() {
            push_amount(page, alloc, series, number);
            return;
        }
    }
    page.say(number);
}
