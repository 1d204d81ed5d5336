//! The scans of a run as a table for a spreadsheet.
use crate::files::WriteFault;
use crate::run_watch::trace_rows::{write_heads, write_row};
use commands::{DEPTH, ScanWatch};
use csv::{Writer, WriterBuilder};
use gateway::{Core, WriteOrder};
use std::alloc::Global;
use std::io::Write;

/// Writes a row for each scan of a run as it comes, in CSV, and before the first one the heads of the columns.
#[derive(Drop)]
pub struct Trace<W: Write + Drop> {
    alloc: Global,
    rows: Writer<W>,
    has_heads: bool,
    /// What hindered a row; nothing is written after it.
    hindered: Result<(), WriteFault>,
}

impl<W: Write + Drop> Trace<W> {
    /// No row was written yet.
    pub fn new(alloc: Global, file: W) -> Trace<W> {
        Trace {
            alloc,
            rows: WriterBuilder::new().from_writer(file),
            has_heads: false,
            hindered: Ok(()),
        }
    }

    /// Writes out what is left, once no more scans come. Err: what hindered a row, or this.
    pub fn end(&mut self) -> Result<(), WriteFault> {
        self.hindered?;
        self.rows.flush()?;
        Ok(())
    }

    fn write(
        &mut self,
        core: &Core<DEPTH>,
        order: &WriteOrder,
        scan: u32,
    ) -> Result<(), WriteFault> {
        if !self.has_heads {
            write_heads(self.alloc, &mut self.rows, core)?;
            self.has_heads = true;
        }
        write_row(self.alloc, &mut self.rows, core, order, scan)
    }
}

impl<W: Write + Drop> ScanWatch for Trace<W> {
    fn scanned(&mut self, core: &Core<DEPTH>, order: &WriteOrder, scan: u32) {
        if self.hindered.is_ok() {
            self.hindered = self.write(core, order, scan);
        }
    }
}
