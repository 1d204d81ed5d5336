//! What is counted of a unit.
use crate::fault::Played;
use crate::roof::Unit;
use crate::span::TimeSpan;
use std::alloc::Global;

/// When a unit was written, and after how many scans.
#[derive(Clone, Copy)]
pub(crate) struct LifeMark {
    pub(crate) at: u64,
    pub(crate) scans: u64,
}

/// A span of time in which a unit lives, and what was written to it then.
#[derive(Clone, Copy)]
pub(crate) struct Life {
    pub(crate) span: TimeSpan,
    /// How long after its beginning it was written.
    pub(crate) first: Option<u64>,
    pub(crate) writes: u64,
    /// The last write, from which the next gap counts.
    last: Option<LifeMark>,
    /// The longest time from one write to the next.
    pub(crate) gap: u64,
    /// The most scans from one write to the next.
    pub(crate) scans: u64,
}

impl Life {
    fn new(from: u64, to: u64) -> Life {
        Life {
            span: TimeSpan { from, to },
            first: None,
            writes: 0,
            last: None,
            gap: 0,
            scans: 0,
        }
    }

    fn write(&mut self, mark: LifeMark, settle: u64) {
        if self.first.is_none() {
            self.first = Some(mark.at.saturating_sub(self.span.from));
        }
        self.writes = self.writes.saturating_add(1);
        self.stretch(mark, settle);
        self.last = Some(mark);
    }

    /// Counts the time since the last write, as far as it is after the site has settled.
    fn stretch(&mut self, mark: LifeMark, settle: u64) {
        if let Some(last) = self.last
            && mark.at > settle
        {
            let from = last.at.max(settle);
            self.gap = self.gap.max(mark.at.saturating_sub(from));
            self.scans = self.scans.max(mark.scans.saturating_sub(last.scans));
        }
    }
}

/// A unit's lives, and until when an answer of it is waited for.
#[derive(Drop)]
pub(crate) struct Lives {
    pub(crate) all: Vec<Life>,
    awaited: u64,
}

impl Lives {
    /// Those between a unit's times of silence.
    pub(crate) fn new(alloc: Global, unit: &Unit, end: u64) -> Played<Lives> {
        let mut all = Vec::new(alloc);
        let mut from = 0;
        for silent in unit.silent.iter() {
            if silent.from > from {
                all.push(Life::new(from, silent.from.min(end)))?;
            }
            from = silent.to.max(from).min(end);
        }
        if from < end {
            all.push(Life::new(from, end))?;
        }
        Ok(Lives { all, awaited: 0 })
    }

    /// It is asked, and has until then to answer; whether it was still waited for.
    pub(crate) fn ask(&mut self, now: u64, until: u64) -> bool {
        let is_twice = now < self.awaited;
        self.awaited = until;
        is_twice
    }

    /// Its answer isn't waited for any more.
    pub(crate) fn answered(&mut self) {
        self.awaited = 0;
    }

    /// It was written.
    pub(crate) fn write(&mut self, mark: LifeMark, settle: u64) {
        for life in self.all.iter_mut() {
            if life.span.has(mark.at) {
                life.write(mark, settle);
            }
        }
    }

    /// Its connection was cut: no gap counts until it is written again.
    pub(crate) fn cut(&mut self) {
        for life in self.all.iter_mut() {
            life.last = None;
        }
    }

    /// Whether it lived all the time between these two.
    pub(crate) fn is_alive(&self, from: u64, to: u64) -> bool {
        self.all
            .iter()
            .any(|life| life.span.has(from) && life.span.has(to))
    }

    /// The site ends: the time since the last write counts too.
    pub(crate) fn end(&mut self, mark: LifeMark, settle: u64) {
        for life in self.all.iter_mut() {
            if life.span.to >= mark.at {
                life.stretch(mark, settle);
            }
        }
    }
}
