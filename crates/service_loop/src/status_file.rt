//! The file that says how a service stands.
use crate::replacing::replace;
use service_texts::WriteRecord;
use std::alloc::{AllocError, Global};
use std::io;
use std::rt::Files;

/// The file that says how a service stands.
#[derive(Drop)]
pub(crate) struct StatusFile<'a> {
    path: &'a str,
    writes: WriteRecord,
    /// Whether a scan is over since it was written.
    is_due: bool,
}

impl<'a> StatusFile<'a> {
    /// The file at a path; nothing is written yet.
    pub(crate) fn new(path: &'a str) -> StatusFile<'a> {
        StatusFile {
            path,
            writes: WriteRecord::new(),
            is_due: false,
        }
    }

    /// A scan is over: the file is to be written.
    pub(crate) fn scanned(&mut self) {
        self.is_due = true;
    }

    /// Whether the file is to be written.
    pub(crate) fn is_due(&self) -> bool {
        self.is_due
    }

    /// Replaces the file by a text. Gives the word by which it is told that it can't be written, or can again.
    pub(crate) fn keep<R: Files>(
        &mut self,
        rt: &R,
        alloc: Global,
        text: Result<String, AllocError>,
    ) -> Option<&'static str> {
        self.is_due = false;
        let is_written = write_status(rt, alloc, self.path, text).is_ok();
        self.writes.note(is_written)
    }
}

fn write_status<R: Files>(
    rt: &R,
    alloc: Global,
    path: &str,
    text: Result<String, AllocError>,
) -> io::Result<()> {
    let text = text?;
    replace(rt, alloc, path, text.as_bytes())
}
