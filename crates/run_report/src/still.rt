//! Lines that were the same in each scan.
use crate::amounts::{push_amount, push_amounts};
use crate::recorded::{Sample, ScanSeries};
use crate::sheet::Sheet;
use std::alloc::Global;

/// What a line was in each scan, where it had the same number, the same default or none in all of them.
pub(crate) fn still_of(samples: &[Sample]) -> Option<Sample> {
    let mut before = None;
    for sample in samples {
        if !goes_on(before, *sample) {
            return None;
        }
        before = Some(*sample);
    }
    before
}

/// Whether a sample is like the one before, or the first one and written.
fn goes_on(before: Option<Sample>, sample: Sample) -> bool {
    match (before, sample) {
        (_, Sample::Unwritten(_, _)) => false,
        (None, _) => true,
        (Some(Sample::Number(n)), Sample::Number(m)) => n == m,
        (Some(Sample::Default(n, _)), Sample::Default(m, _)) => n == m,
        (Some(Sample::Missing(_)), Sample::Missing(_)) => true,
        _ => false,
    }
}

/// Appends what a line was in each scan: `NAME is 50 W throughout`.
pub(crate) fn push_still(page: &mut Sheet, alloc: Global, series: &ScanSeries, sample: Sample) {
    page.push("<li><b>");
    page.push_html(series.name.as_str());
    page.push("</b> ");
    push_throughout(page, alloc, series, sample);
    page.push(" <small>may be ");
    push_amounts(page, alloc, series, series.low, series.high);
    page.push("</small></li>\n");
}

fn push_throughout(page: &mut Sheet, alloc: Global, series: &ScanSeries, sample: Sample) {
    match sample {
        Sample::Number(n) | Sample::Unwritten(n, _) => {
            page.push("is ");
            push_amount(page, alloc, series, n);
            page.push(" throughout");
        }
        Sample::Default(n, _) => {
            page.push("is ");
            push_amount(page, alloc, series, n);
            page.push(" throughout, its default");
        }
        Sample::Missing(_) => page.push("never has a number"),
    }
}
