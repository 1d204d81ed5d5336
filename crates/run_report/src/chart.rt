//! The chart of a line of numbers, and of the limit for it beside.
use crate::axis::Axis;
use crate::coordinates::{TALL, WIDE, WIDER};
use crate::curve::{Stroke, push_steps};
use crate::frame::{Side, push_numbers, push_plot, push_scans};
use crate::marks::{Set, push_sets, push_spans, sets_of};
use crate::recorded::{RunReport, ScanSeries};
use crate::remarks::{push_caption, push_remarks};
use crate::sheet::Sheet;
use crate::spans::{FaultSpan, spans_of};
use std::alloc::Global;

/// A line as it is drawn.
#[derive(Drop)]
struct Line<'r> {
    series: &'r ScanSeries,
    /// Where its axis is.
    side: Side,
    axis: Axis,
    spans: Vec<FaultSpan>,
    sets: Vec<Set>,
}

impl<'r> Line<'r> {
    fn of(page: &mut Sheet, alloc: Global, series: &'r ScanSeries, side: Side) -> Line<'r> {
        Line {
            series,
            side,
            axis: Axis::of(series.samples.as_slice()),
            spans: page.got_list(spans_of(alloc, series)),
            sets: page.got_list(sets_of(alloc, series)),
        }
    }

    /// Appends what stands before the lines: its marks over the plot, and the numbers of its axis.
    fn push_ground(&self, page: &mut Sheet, alloc: Global, n: usize) {
        push_spans(page, self.spans.as_slice(), n, self.side);
        push_numbers(page, alloc, self.axis, self.series, self.side);
    }

    /// Appends its numbers over n scans.
    fn push_curve(&self, page: &mut Sheet, alloc: Global, n: usize) {
        self.push_path(page, alloc, "default", n, Stroke::Default);
        self.push_path(page, alloc, "own", n, Stroke::Own);
        push_sets(page, alloc, self.series, self.sets.as_slice(), n, self.axis);
    }

    fn push_path(&self, page: &mut Sheet, alloc: Global, class: &str, n: usize, stroke: Stroke) {
        let mut steps = Sheet::new(alloc);
        push_steps(
            &mut steps,
            self.series.samples.as_slice(),
            n,
            self.axis,
            stroke,
        );
        if steps.is_empty() {
            return;
        }
        let steps = page.got(steps.whole());
        let limit = match self.side {
            Side::Left => "",
            Side::Right => " limit",
        };
        page.say(format_args!("<path class=\"{class}{limit}\" d=\"{steps}\"/>\n"));
    }

    /// Appends what is said of it below the chart.
    fn push_remarks(&self, page: &mut Sheet, alloc: Global, name: &str) {
        push_remarks(
            page,
            alloc,
            self.series,
            name,
            self.sets.as_slice(),
            self.spans.as_slice(),
        );
    }
}

/// Appends the chart of a line of a run, with what is said of it; the limit for it has its axis at the right.
pub(crate) fn push_chart(
    page: &mut Sheet,
    alloc: Global,
    report: &RunReport,
    series: &ScanSeries,
    limit: Option<&ScanSeries>,
) {
    let n = report.steps.samples.len();
    let line = Line::of(page, alloc, series, Side::Left);
    page.push("<figure>\n<figcaption>");
    push_caption(page, alloc, series);
    match limit {
        Some(limit) => push_both(page, alloc, report, &line, limit),
        None => {
            push_opening(page, series, WIDE);
            line.push_ground(page, alloc, n);
            push_scans(page, alloc, n, report.every);
            line.push_curve(page, alloc, n);
            page.push("</svg>\n");
            line.push_remarks(page, alloc, "");
        }
    }
    page.push("</figure>\n");
}

/// Appends the chart of a line and the limit for it.
fn push_both(
    page: &mut Sheet,
    alloc: Global,
    report: &RunReport,
    line: &Line<'_>,
    limit: &ScanSeries,
) {
    let n = report.steps.samples.len();
    let beside = Line::of(page, alloc, limit, Side::Right);
    page.push("<br>\n");
    push_caption(page, alloc, limit);
    push_opening(page, line.series, WIDER);
    line.push_ground(page, alloc, n);
    beside.push_ground(page, alloc, n);
    push_scans(page, alloc, n, report.every);
    line.push_curve(page, alloc, n);
    beside.push_curve(page, alloc, n);
    page.push("</svg>\n");
    line.push_remarks(page, alloc, line.series.name.as_str());
    beside.push_remarks(page, alloc, limit.name.as_str());
}

/// Ends the caption, and opens the picture with the plot.
fn push_opening(page: &mut Sheet, series: &ScanSeries, wide: u32) {
    page.say(format_args!(
        "</figcaption>\n<svg viewBox=\"0 0 {wide} {TALL}\" role=\"img\" aria-label=\""
    ));
    page.push_html(series.name.as_str());
    page.push("\">\n");
    push_plot(page);
}
