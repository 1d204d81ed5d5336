//! What happened in a run, in the order of its scans.
use crate::marks::{Set, sets_of};
use crate::recorded::{RunReport, ScanSeries, Unset};
use crate::spans::{FaultSpan, spans_of};
use std::alloc::{AllocError, Global};

/// What happened.
#[derive(Clone, Copy)]
pub(crate) enum Event<'r> {
    /// A client set a line.
    Set(&'r ScanSeries, Set),
    /// A line was missing, or wasn't set, stored or written.
    Wrong(&'r ScanSeries, FaultSpan),
    /// A client couldn't set what it was to set.
    Unset(&'r Unset),
}

impl Event<'_> {
    /// The first scan of it, counted from 1.
    pub fn first(&self) -> usize {
        match self {
            Event::Set(_, set) => set.scan,
            Event::Wrong(_, span) => span.first,
            Event::Unset(unset) => usize::try_from(unset.scan).unwrap_or(usize::MAX),
        }
    }

    /// The last one.
    pub fn last(&self) -> usize {
        match self {
            Event::Wrong(_, span) => span.last,
            _ => self.first(),
        }
    }
}

/// All that happened, in the order in which it began.
pub(crate) fn events_of(alloc: Global, report: &RunReport) -> Result<Vec<Event<'_>>, AllocError> {
    let mut events = Vec::new(alloc);
    for series in &report.series {
        push_sets(alloc, &mut events, series)?;
        push_spans(alloc, &mut events, series)?;
    }
    push_unset(&mut events, report.unset.as_slice())?;
    events.sort_by_key(|event| event.first())?;
    Ok(events)
}

fn push_sets<'r>(
    alloc: Global,
    events: &mut Vec<Event<'r>>,
    series: &'r ScanSeries,
) -> Result<(), AllocError> {
    for set in sets_of(alloc, series)? {
        events.push(Event::Set(series, set))?;
    }
    Ok(())
}

fn push_spans<'r>(
    alloc: Global,
    events: &mut Vec<Event<'r>>,
    series: &'r ScanSeries,
) -> Result<(), AllocError> {
    for span in spans_of(alloc, series)? {
        events.push(Event::Wrong(series, span))?;
    }
    Ok(())
}

fn push_unset<'r>(events: &mut Vec<Event<'r>>, unset: &'r [Unset]) -> Result<(), AllocError> {
    for it in unset {
        events.push(Event::Unset(it))?;
    }
    Ok(())
}
