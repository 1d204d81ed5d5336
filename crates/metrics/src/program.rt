//! What runs, and how its scans go.
use crate::numbers::Metrics;
use crate::sheet::Sheet;
use note_text::decimal;
use std::alloc::AllocError;

pub(crate) fn push_program(sheet: &mut Sheet, metrics: &Metrics<'_>) -> Result<(), AllocError> {
    push_info(sheet, metrics)?;
    push_times(sheet, metrics)?;
    push_counts(sheet, metrics)?;
    push_rounds(sheet, metrics)?;
    push_steps(sheet, metrics)
}

fn push_info(sheet: &mut Sheet, metrics: &Metrics<'_>) -> Result<(), AllocError> {
    let start = metrics.start;
    sheet.gauge(
        "sunsite_info",
        "What runs: the version, the first digits of the hashes of the site file and the program, and what the site is called.",
    )?;
    let labels = [
        ("version", start.version),
        ("site", start.site.as_str()),
        ("program", start.program.as_str()),
        ("name", metrics.name.unwrap_or("")),
    ];
    sheet.labelled("sunsite_info", &labels, 1)
}

fn push_times(sheet: &mut Sheet, metrics: &Metrics<'_>) -> Result<(), AllocError> {
    if let Some(seconds) = metrics.began_at {
        let name = "sunsite_start_time_seconds";
        sheet.gauge(name, "When the service began, in seconds since 1970.")?;
        sheet.number(name, seconds)?;
    }
    if let Some(seconds) = metrics.scanned_at {
        let name = "sunsite_last_scan_time_seconds";
        sheet.gauge(name, "When its last scan was told, in seconds since 1970.")?;
        sheet.number(name, seconds)?;
    }
    Ok(())
}

fn push_counts(sheet: &mut Sheet, metrics: &Metrics<'_>) -> Result<(), AllocError> {
    let name = "sunsite_scans_total";
    sheet.counter(name, "How many scans there were.")?;
    sheet.number(name, metrics.service.scans())?;
    let name = "sunsite_late_rounds_total";
    sheet.counter(name, "How many rounds began more than a period late.")?;
    sheet.number(name, metrics.late)?;
    let name = "sunsite_lines_left_out_total";
    sheet.counter(name, "How many lines could not be written.")?;
    sheet.number(name, metrics.left_out)?;
    let name = "sunsite_clients";
    sheet.gauge(name, "How many clients are connected.")?;
    sheet.number(name, metrics.clients)
}

fn push_rounds(sheet: &mut Sheet, metrics: &Metrics<'_>) -> Result<(), AllocError> {
    let name = "sunsite_period_seconds";
    sheet.gauge(name, "From one scan to the next.")?;
    let period = decimal(sheet.alloc, i128::from(metrics.period), -3)?;
    sheet.number(name, period.as_str())?;
    if let Some(took) = metrics.round {
        let name = "sunsite_round_duration_seconds";
        sheet.gauge(
            name,
            "From the last run of the program until nothing of it was left to be written.",
        )?;
        let took = decimal(sheet.alloc, i128::from(took), -3)?;
        sheet.number(name, took.as_str())?;
    }
    Ok(())
}

fn push_steps(sheet: &mut Sheet, metrics: &Metrics<'_>) -> Result<(), AllocError> {
    let budget = metrics.service.core().machine().verified().budget();
    let name = "sunsite_program_budget_steps";
    sheet.gauge(name, "How many instructions a scan takes at most: proved.")?;
    sheet.number(name, budget)?;
    if let Some(steps) = metrics.steps {
        let name = "sunsite_program_steps";
        sheet.gauge(name, "How many instructions the last scan took.")?;
        sheet.number(name, steps)?;
    }
    Ok(())
}
