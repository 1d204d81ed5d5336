//! Numbers of a line, in its unit.
use crate::numbers::shown;
use crate::recorded::ScanSeries;
use crate::sheet::Sheet;
use std::alloc::Global;

/// Appends a number of a line with its unit.
pub(crate) fn push_amount(page: &mut Sheet, alloc: Global, series: &ScanSeries, number: i64) {
    push_number(page, alloc, series, number);
    push_unit(page, series);
}

/// Appends the numbers from one to another, as `0 to 100 W`; one number where they are the same.
pub(crate) fn push_amounts(
    page: &mut Sheet,
    alloc: Global,
    series: &ScanSeries,
    low: i64,
    high: i64,
) {
    if low != high {
        push_number(page, alloc, series, low);
        page.push(" to ");
    }
    push_amount(page, alloc, series, high);
}

fn push_number(page: &mut Sheet, alloc: Global, series: &ScanSeries, number: i64) {
    let number = page.got(shown(alloc, number, series.exponent));
    page.push(number.as_str());
}

/// Appends a blank and the unit of a line, where it has one.
fn push_unit(page: &mut Sheet, series: &ScanSeries) {
    if !series.unit.is_empty() {
        page.push(" ");
        page.push_html(series.unit.as_str());
    }
}
