//! The groups of a page, and the charts of each.
use crate::chart::push_chart;
use crate::recorded::{Measure, Role, RunReport, ScanSeries};
use crate::sheet::Sheet;
use crate::still::{push_still, still_of};
use std::alloc::Global;

/// The lines that stand below one heading.
#[derive(Clone, Copy)]
enum Group {
    /// Those of a device, by its place.
    Device(usize),
    /// Those of no device that have this role.
    Site(Role),
}

/// The groups after those of the devices, and their heads.
const SITE: [(&str, Role); 6] = [
    ("What clients set", Role::Setting),
    ("What clients read", Role::Shown),
    ("Read without a device", Role::Input),
    ("Written without a device", Role::Output),
    ("Time", Role::Time),
    ("Variables of the program", Role::Variable),
];

impl Group {
    fn has(self, series: &ScanSeries) -> bool {
        match (self, series.device) {
            (Group::Device(place), Some(device)) => place == device,
            (Group::Site(role), None) => role == series.role,
            _ => false,
        }
    }

    /// A device's power and the limit for it, which stand in one chart.
    fn pair_in(self, report: &RunReport) -> Option<Pair> {
        let Group::Device(_) = self else {
            return None;
        };
        Some(Pair {
            power: self.first_in(report, Measure::Power)?,
            limit: self.first_in(report, Measure::Limit)?,
        })
    }

    /// The place of the first of its lines that measures this and has a chart.
    fn first_in(self, report: &RunReport, measure: Measure) -> Option<usize> {
        for (i, series) in report.series.iter().enumerate() {
            if self.has(series) && series.measure == measure && !is_still(series) {
                return Some(i);
            }
        }
        None
    }
}

/// Two lines of one chart, by their places in the report.
#[derive(Clone, Copy)]
struct Pair {
    power: usize,
    limit: usize,
}

fn is_still(series: &ScanSeries) -> bool {
    still_of(series.samples.as_slice()).is_some()
}

/// Appends the charts of a run: those of each device, then the others.
pub(crate) fn push_groups(page: &mut Sheet, alloc: Global, report: &RunReport) {
    push_devices(page, alloc, report);
    for (head, role) in SITE {
        push_group(page, alloc, report, Group::Site(role), "", head);
    }
    push_steps(page, alloc, report);
}

fn push_devices(page: &mut Sheet, alloc: Global, report: &RunReport) {
    for (i, name) in report.devices.iter().enumerate() {
        push_group(
            page,
            alloc,
            report,
            Group::Device(i),
            "Device ",
            name.as_str(),
        );
    }
}

/// Appends a group below its head, where it has a line.
fn push_group(
    page: &mut Sheet,
    alloc: Global,
    report: &RunReport,
    group: Group,
    before: &str,
    name: &str,
) {
    let mut charts = Sheet::new(alloc);
    push_charts(&mut charts, alloc, report, group);
    let mut lines = Sheet::new(alloc);
    push_stills(&mut lines, alloc, report, group);
    let (charts, lines) = (page.got(charts.whole()), page.got(lines.whole()));
    if charts.is_empty() && lines.is_empty() {
        return;
    }
    page.push("<h2>");
    page.push(before);
    page.push_html(name);
    page.push("</h2>\n");
    push_within(page, "section", charts.as_str());
    push_within(page, "ul", lines.as_str());
}

/// Appends an element, where there is something in it.
fn push_within(page: &mut Sheet, element: &str, inside: &str) {
    if !inside.is_empty() {
        page.say(format_args!("<{element}>\n{inside}</{element}>\n"));
    }
}

/// Appends the charts of a group's lines that changed.
fn push_charts(page: &mut Sheet, alloc: Global, report: &RunReport, group: Group) {
    let pair = group.pair_in(report);
    for (i, series) in report.series.iter().enumerate() {
        if group.has(series) && !is_still(series) {
            push_charted(page, alloc, report, pair, i, series);
        }
    }
}

/// Appends the chart of a line with the limit for it, or no chart of a limit that stands in another one.
fn push_charted(
    page: &mut Sheet,
    alloc: Global,
    report: &RunReport,
    pair: Option<Pair>,
    i: usize,
    series: &ScanSeries,
) {
    match pair {
        Some(pair) if pair.limit == i => {}
        Some(pair) if pair.power == i => {
            push_chart(page, alloc, report, series, report.series.get(pair.limit));
        }
        _ => push_chart(page, alloc, report, series, None),
    }
}

/// Appends what a group's lines were that didn't change.
fn push_stills(page: &mut Sheet, alloc: Global, report: &RunReport, group: Group) {
    for series in &report.series {
        if group.has(series) {
            if let Some(sample) = still_of(series.samples.as_slice()) {
                push_still(page, alloc, series, sample);
            }
        }
    }
}

/// Appends the chart of the instructions, where scans took more of them and fewer.
fn push_steps(page: &mut Sheet, alloc: Global, report: &RunReport) {
    if is_still(&report.steps) {
        return;
    }
    let mut chart = Sheet::new(alloc);
    push_chart(&mut chart, alloc, report, &report.steps, None);
    let chart = page.got(chart.whole());
    page.push("<h2>Instructions of the program</h2>\n");
    push_within(page, "section", chart.as_str());
}
