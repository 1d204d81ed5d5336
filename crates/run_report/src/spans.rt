//! From which scan to which a line was missing or wasn't written.
use crate::recorded::{Role, Sample, ScanSeries};
use std::alloc::{AllocError, Global};

/// What was wrong with a line.
#[derive(Clone, Copy, PartialEq, Eq)]
pub(crate) enum Wrong {
    /// It had no number.
    Missing,
    /// A default was in its place.
    Defaulted,
    /// No client set it; a default may have been in its place.
    Unset,
    /// The program stored nothing.
    Unstored,
    /// What was stored wasn't written.
    Unwritten,
}

/// Scans that follow each other with the same fault, counted from 1.
#[derive(Clone, Copy)]
pub(crate) struct FaultSpan {
    pub first: usize,
    pub last: usize,
    pub wrong: Wrong,
    pub cause: &'static str,
}

impl Wrong {
    /// The class of what is drawn of it.
    pub fn class(self) -> &'static str {
        match self {
            Wrong::Missing | Wrong::Defaulted => "missing",
            Wrong::Unset | Wrong::Unstored => "unset",
            Wrong::Unwritten => "unwritten",
        }
    }

    /// It in words.
    pub fn words(self) -> &'static str {
        match self {
            Wrong::Missing => "missing",
            Wrong::Defaulted => "missing, its default in its place",
            Wrong::Unset => "not set by a client",
            Wrong::Unstored => "not stored",
            Wrong::Unwritten => "not written",
        }
    }
}

impl FaultSpan {
    /// Whether the next scan belongs to it.
    fn goes_on(self, scan: usize, wrong: Wrong, cause: &str) -> bool {
        self.last.saturating_add(1) == scan && self.wrong == wrong && self.cause == cause
    }
}

/// What was wrong with a line, in the order of the scans.
pub(crate) fn spans_of(alloc: Global, series: &ScanSeries) -> Result<Vec<FaultSpan>, AllocError> {
    let mut spans = Vec::new(alloc);
    for (i, sample) in series.samples.iter().enumerate() {
        if let Some((wrong, cause)) = wrong_in(series.role, *sample) {
            note(&mut spans, i.saturating_add(1), wrong, cause)?;
        }
    }
    Ok(spans)
}

/// What was wrong in a scan, and why.
fn wrong_in(role: Role, sample: Sample) -> Option<(Wrong, &'static str)> {
    match (role, sample) {
        (_, Sample::Number(_)) => None,
        (Role::Setting, Sample::Default(_, cause) | Sample::Missing(cause)) => {
            Some((Wrong::Unset, cause))
        }
        (Role::Output | Role::Shown, Sample::Missing(cause)) => Some((Wrong::Unstored, cause)),
        (_, Sample::Missing(cause)) => Some((Wrong::Missing, cause)),
        (_, Sample::Default(_, cause)) => Some((Wrong::Defaulted, cause)),
        (_, Sample::Unwritten(_, cause)) => Some((Wrong::Unwritten, cause)),
    }
}

/// Notes one more scan: the last span goes on, or a new one begins.
fn note(
    spans: &mut Vec<FaultSpan>,
    scan: usize,
    wrong: Wrong,
    cause: &'static str,
) -> Result<(), AllocError> {
    if let Some(last) = spans.last_mut() {
        if last.goes_on(scan, wrong, cause) {
            last.last = scan;
            return Ok(());
        }
    }
    spans.push(FaultSpan {
        first: scan,
        last: scan,
        wrong,
        cause,
    })?;
    Ok(())
}
