//! What stands in a chart before its line: the plot, and the numbers of its axes.
use crate::axis::{Axis, MARKS};
use crate::coordinates::{BOTTOM, LEFT, RIGHT, TOP, WIDER, x_within};
use crate::numbers::time_of;
use crate::recorded::ScanSeries;
use crate::sheet::Sheet;
use crate::ticks::{is_tick, tick_step};
use note_text::decimal;
use std::alloc::Global;

/// Where an axis of numbers is.
#[derive(Clone, Copy)]
pub(crate) enum Side {
    Left,
    /// That of a limit.
    Right,
}

impl Side {
    /// How many letters of a number have room beside the plot.
    fn room(self) -> usize {
        match self {
            Side::Left => 9,
            Side::Right => 6,
        }
    }

    /// How long a number is that has more.
    fn length(self) -> u32 {
        match self {
            Side::Left => 700,
            Side::Right => 430,
        }
    }
}

/// Appends the plot.
pub(crate) fn push_plot(page: &mut Sheet) {
    let (wide, tall) = (RIGHT - LEFT, BOTTOM - TOP);
    page.say(format_args!(
        "<rect class=\"plot\" x=\"{LEFT}\" y=\"{TOP}\" width=\"{wide}\" height=\"{tall}\"/>\n"
    ));
}

/// Appends the numbers beside the axis of a line, and their unit.
pub(crate) fn push_numbers(
    page: &mut Sheet,
    alloc: Global,
    axis: Axis,
    series: &ScanSeries,
    side: Side,
) {
    for k in 0..MARKS {
        if let Some(number) = axis.mark(k) {
            push_mark(page, axis.y(number), number, side);
            push_number(page, alloc, axis, number, series.exponent, side);
        }
    }
    push_unit(page, series.unit.as_str(), side);
}

/// Appends the line of a number: over the whole plot at the left axis, and more so that of 0.
fn push_mark(page: &mut Sheet, y: u32, number: i128, side: Side) {
    let (before, after) = (LEFT - 50, RIGHT + 50);
    match side {
        Side::Left if number == 0 => {
            page.say(format_args!("<path class=\"zero\" d=\"M{before} {y}H{RIGHT}\"/>"));
        }
        Side::Left => page.say(format_args!("<path class=\"tick\" d=\"M{before} {y}H{RIGHT}\"/>")),
        Side::Right => page.say(format_args!("<path class=\"tick\" d=\"M{RIGHT} {y}H{after}\"/>")),
    }
}

fn push_number(
    page: &mut Sheet,
    alloc: Global,
    axis: Axis,
    number: i128,
    exponent: i8,
    side: Side,
) {
    let base = axis.y(number) + 50;
    let text = page.got(decimal(alloc, number, exponent));
    let (class, x) = match side {
        Side::Left => ("end", LEFT - 80),
        Side::Right => ("limit", RIGHT + 80),
    };
    page.say(format_args!("<text class=\"{class}\" x=\"{x}\" y=\"{base}\""));
    if text.len() > side.room() {
        let length = side.length();
        page.say(format_args!(" textLength=\"{length}\" lengthAdjust=\"spacingAndGlyphs\""));
    }
    page.say(format_args!(">{text}</text>\n"));
}

/// Appends the unit of an axis, where there is one: upright, in the middle of its outer side.
fn push_unit(page: &mut Sheet, unit: &str, side: Side) {
    if unit.is_empty() {
        return;
    }
    let middle = (TOP + BOTTOM) / 2;
    let (class, x) = match side {
        Side::Left => ("mid", LEFT - 800),
        Side::Right => ("mid limit", WIDER - 50),
    };
    page.say(format_args!(
        "<text class=\"{class}\" transform=\"translate({x} {middle}) rotate(-90)\">"
    ));
    page.push_html(unit);
    page.push("</text>\n");
}

/// Appends the numbers of scans below the plot, and the time of the first and the last.
pub(crate) fn push_scans(page: &mut Sheet, alloc: Global, n: usize, every: u32) {
    let x = LEFT - 80;
    let (scans, times) = (BOTTOM + 190, BOTTOM + 350);
    page.say(format_args!("<text class=\"end\" x=\"{x}\" y=\"{scans}\">scan</text>\n"));
    push_ticks(page, n);
    let first = page.got(time_of(alloc, 1, every));
    let last = page.got(time_of(alloc, n, every));
    let left = x_within(1, n);
    page.say(format_args!("<text class=\"mid\" x=\"{left}\" y=\"{times}\">{first}</text>\n"));
    if n < 2 {
        return;
    }
    let (right, anchor) = if n > 8 {
        (RIGHT, "end")
    } else {
        (x_within(n, n), "mid")
    };
    page.say(format_args!("<text class=\"{anchor}\" x=\"{right}\" y=\"{times}\">{last}</text>\n"));
}

fn push_ticks(page: &mut Sheet, n: usize) {
    let step = tick_step(n);
    for k in 1..=n {
        if is_tick(k, n, step) {
            push_tick(page, k, n);
        }
    }
}

fn push_tick(page: &mut Sheet, k: usize, n: usize) {
    let x = x_within(k, n);
    let (end, base) = (BOTTOM + 50, BOTTOM + 190);
    page.say(format_args!(
        "<path class=\"tick\" d=\"M{x} {BOTTOM}V{end}\"/><text class=\"mid\" x=\"{x}\" y=\"{base}\">{k}</text>\n"
    ));
}
