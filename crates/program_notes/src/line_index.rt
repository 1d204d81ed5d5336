//! Which instructions stand on each line.
use crate::rows::Row;
use std::alloc::{AllocError, Global};

/// The numbers of the instructions by their lines: the first one of each line, and the next one on the same line.
#[derive(Drop)]
pub(crate) struct LineIndex {
    first: Vec<Option<usize>>,
    next: Vec<Option<usize>>,
}

impl LineIndex {
    /// The index of these rows, for a text of so many lines.
    pub(crate) fn of(alloc: Global, rows: &[Row], lines: usize) -> Result<LineIndex, AllocError> {
        let mut index = LineIndex {
            first: vec![in alloc; None; lines.saturating_add(1)]?,
            next: vec![in alloc; None; rows.len()]?,
        };
        for row in rows.iter().rev() {
            index.add(row.line as usize, row.number);
        }
        Ok(index)
    }

    /// Puts an instruction before those of its line that are there.
    fn add(&mut self, line: usize, number: usize) {
        let before = self.first_on(line);
        if let Some(next) = self.next.get_mut(number) {
            *next = before;
        }
        if let Some(first) = self.first.get_mut(line) {
            *first = Some(number);
        }
    }

    /// The first instruction of a line.
    pub(crate) fn first_on(&self, line: usize) -> Option<usize> {
        match self.first.get(line) {
            Some(first) => *first,
            None => None,
        }
    }

    /// The next instruction of the same line.
    pub(crate) fn behind(&self, number: usize) -> Option<usize> {
        match self.next.get(number) {
            Some(next) => *next,
            None => None,
        }
    }
}
