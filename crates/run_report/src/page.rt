//! The whole page.
use crate::axis::extent_of;
use crate::groups::push_groups;
use crate::numbers::seconds;
use crate::recorded::{RunFile, RunReport};
use crate::sheet::Sheet;
use crate::style::{LEGEND, SIGNATURE, STYLE};
use crate::table::push_table;
use std::alloc::{AllocError, Global};

/// The page of a run, in HTML.
pub fn page_of(alloc: Global, report: &RunReport) -> Result<String, AllocError> {
    let mut page = Sheet::new(alloc);
    push_head(&mut page, report);
    push_run(&mut page, alloc, report);
    push_groups(&mut page, alloc, report);
    push_table(&mut page, alloc, report);
    page.push(SIGNATURE);
    page.push("</body>\n</html>\n");
    page.whole()
}

fn push_head(page: &mut Sheet, report: &RunReport) {
    page.push(
        "<!DOCTYPE html>\n<html lang=\"en\">\n<head>\n<meta charset=\"utf-8\">\n<meta name=\"viewport\" content=\"width=device-width, initial-scale=1\">\n<title>",
    );
    push_title(page, report);
    page.push("</title>\n<style>\n");
    page.push(STYLE);
    page.push("</style>\n</head>\n<body>\n<h1>");
    push_title(page, report);
    page.push("</h1>\n");
}

fn push_title(page: &mut Sheet, report: &RunReport) {
    page.push_html(report.program.path.as_str());
    page.push(" on ");
    page.push_html(report.site.path.as_str());
}

/// Appends what the run was of, and how far it came.
fn push_run(page: &mut Sheet, alloc: Global, report: &RunReport) {
    page.push("<dl>\n");
    push_source(page, "Site", &report.site);
    push_source(page, "Program", &report.program);
    page.push("<dt>Plant</dt><dd>");
    page.push_html(report.plant.as_str());
    page.push("</dd>\n<dt>Scans</dt><dd>");
    push_scans(page, alloc, report);
    page.push("</dd>\n<dt>Instructions</dt><dd>");
    push_steps(page, report);
    page.push("</dd>\n</dl>\n");
    page.push(LEGEND);
}

/// Appends the path of a file, and the digits of its hash.
fn push_source(page: &mut Sheet, what: &str, source: &RunFile) {
    page.say(format_args!("<dt>{what}</dt><dd>"));
    page.push_html(source.path.as_str());
    page.push(" <small>SHA-256 ");
    page.push_html(source.digits.as_str());
    page.push("..</small></dd>\n");
}

fn push_scans(page: &mut Sheet, alloc: Global, report: &RunReport) {
    let done = u32::try_from(report.steps.samples.len()).unwrap_or(u32::MAX);
    let all = report.scans;
    let every = page.got(seconds(alloc, u64::from(report.every)));
    if done == all {
        page.say(format_args!("{done}, {every} apart"));
        return;
    }
    page.say(format_args!("{done} of {all}, {every} apart"));
}

fn push_steps(page: &mut Sheet, report: &RunReport) {
    let budget = report.budget;
    match extent_of(report.steps.samples.as_slice()) {
        Some(all) if all.low == all.high => {
            let all = all.high;
            page.say(format_args!("{all} in each scan, of a budget of {budget}"));
        }
        Some(all) => {
            let most = all.high;
            page.say(format_args!("{most} at most in a scan, of a budget of {budget}"));
        }
        None => page.say(format_args!("none, of a budget of {budget}")),
    }
}
