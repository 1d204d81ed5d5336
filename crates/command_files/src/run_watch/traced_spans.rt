//! The numbers that variables had in a trace of a run.
use csv::{ByteRecord, ErrorKind, ReaderBuilder};
use std::alloc::{AllocError, AllocFailed, Global};
use std::str;

/// What the head of a variable's column begins with.
const VARIABLE: &str = "VAR ";

/// The least and the greatest number that a variable had.
#[derive(Clone, Copy, Debug, PartialEq, Eq)]
pub struct Had {
    pub low: i64,
    pub high: i64,
}

/// A variable of a trace.
#[derive(Drop)]
pub struct TracedVariable {
    pub name: String,
    /// None in a trace without a scan.
    pub had: Option<Had>,
    /// The place of its column.
    column: usize,
}

/// What the variables of a trace had.
#[derive(Drop)]
pub struct TracedSpans {
    /// How many scans the trace has.
    pub scans: usize,
    pub variables: Vec<TracedVariable>,
}

/// Why a text is no trace.
#[derive(Clone, Copy, Debug, PartialEq, Eq)]
pub enum TraceFault {
    /// The row of this number, counted from 1 with the heads, isn't one of a trace.
    Row(usize),
    OutOfMemory,
}

impl From<AllocError> for TraceFault {
    fn from(_refused: AllocError) -> Self {
        TraceFault::OutOfMemory
    }
}

impl<T: Drop> From<AllocFailed<T>> for TraceFault {
    fn from(_refused: AllocFailed<T>) -> Self {
        TraceFault::OutOfMemory
    }
}

impl TracedSpans {
    /// Reads a trace in CSV, as `run --trace` writes it: its heads, of which the first is `scan`, and a row for each scan.
    /// Other columns than those of variables aren't looked at.
    pub fn read(alloc: Global, text: &str) -> Result<TracedSpans, TraceFault> {
        let mut spans = TracedSpans {
            scans: 0,
            variables: Vec::new(alloc),
        };
        let mut rows = 0usize;
        let reader = ReaderBuilder::new()
            .has_headers(false)
            .from_reader(alloc, text.as_bytes());
        for row in reader.into_byte_records() {
            rows = rows.saturating_add(1);
            match row {
                Ok(row) => spans.take_row(alloc, rows, &row)?,
                Err(fault) => return Err(fault_of(&fault.into_kind(), rows)),
            }
        }
        if rows == 0 {
            return Err(TraceFault::Row(1));
        }
        Ok(spans)
    }

    /// What a variable had, where the trace has it.
    pub fn variable(&self, name: &str) -> Option<&TracedVariable> {
        self.variables.iter().find(|it| it.name.as_str() == name)
    }

    fn take_row(
        &mut self,
        alloc: Global,
        number: usize,
        row: &ByteRecord,
    ) -> Result<(), TraceFault> {
        if number == 1 {
            return self.take_heads(alloc, row);
        }
        self.scans = self.scans.saturating_add(1);
        for variable in self.variables.iter_mut() {
            variable.take(row).ok_or(TraceFault::Row(number))?;
        }
        Ok(())
    }

    fn take_heads(&mut self, alloc: Global, row: &ByteRecord) -> Result<(), TraceFault> {
        if row.get(0) != Some(b"scan".as_slice()) {
            return Err(TraceFault::Row(1));
        }
        for column in 0..row.len() {
            if let Some(name) = row.get(column).and_then(variable_of) {
                self.variables.push(TracedVariable {
                    name: String::from_str(alloc, name)?,
                    had: None,
                    column,
                })?;
            }
        }
        Ok(())
    }
}

impl TracedVariable {
    /// Takes its number in a scan; None where there is none.
    fn take(&mut self, row: &ByteRecord) -> Option<()> {
        let number = number_in(row.get(self.column)?)?;
        self.had = Some(match self.had {
            Some(had) => Had {
                low: had.low.min(number),
                high: had.high.max(number),
            },
            None => Had {
                low: number,
                high: number,
            },
        });
        Some(())
    }
}

/// The name of the variable whose column has this head.
fn variable_of(head: &[u8]) -> Option<&str> {
    str::from_utf8(head).ok()?.strip_prefix(VARIABLE)
}

fn number_in(field: &[u8]) -> Option<i64> {
    str::from_utf8(field).ok()?.parse().ok()
}

fn fault_of(kind: &ErrorKind, row: usize) -> TraceFault {
    match kind {
        ErrorKind::OutOfMemory => TraceFault::OutOfMemory,
        _ => TraceFault::Row(row),
    }
}
