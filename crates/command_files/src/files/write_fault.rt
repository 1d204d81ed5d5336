//! Why a file that a run is written into can't be.
use csv::Error;
use refusal_notes::escaped;
use std::alloc::{AllocError, Global};
use std::io;
use std::io::ErrorKind;

/// Why a file isn't whole.
#[derive(Clone, Copy)]
pub enum WriteFault {
    /// A folder of its path isn't there.
    NoFolder,
    Folder,
    /// The system doesn't allow it.
    Denied,
    /// The system can't write it, for another reason.
    Failed,
    OutOfMemory,
}

impl WriteFault {
    /// Of a file that can't be made or written.
    pub fn of(kind: ErrorKind) -> WriteFault {
        match kind {
            ErrorKind::OutOfMemory => WriteFault::OutOfMemory,
            ErrorKind::NotFound | ErrorKind::NotADirectory => WriteFault::NoFolder,
            ErrorKind::IsADirectory => WriteFault::Folder,
            ErrorKind::PermissionDenied | ErrorKind::ReadOnlyFilesystem => WriteFault::Denied,
            _ => WriteFault::Failed,
        }
    }

    /// What is wrong.
    pub fn meaning(self) -> &'static str {
        match self {
            WriteFault::NoFolder => "a part of its path is no folder",
            WriteFault::Folder => "it is a folder",
            WriteFault::Denied => "it may not be written",
            WriteFault::Failed => "it can't be written to its end",
            WriteFault::OutOfMemory => "memory was refused",
        }
    }

    /// What to do about it.
    pub fn help(self) -> &'static str {
        match self {
            WriteFault::NoFolder =>
                "look for a slip in the path: what stands before a / has to be a folder",
            WriteFault::Folder => "name a file in it",
            WriteFault::Denied => "give the right to write it, or to make files in its folder",
            WriteFault::Failed => "look whether its disk works and has room",
            WriteFault::OutOfMemory => "give the program more memory, and run the command again",
        }
    }

    /// Prints a note on the file.
    pub fn explain<R: Eprint + AllocGlobal>(self, rt: &R, path: &str) {
        if let Ok(note) = note(rt.alloc(), path, self) {
            let _ = rt.eprint(note.as_str());
        }
    }
}

impl From<Error> for WriteFault {
    fn from(fault: Error) -> Self {
        match fault.into_kind() {
            csv::ErrorKind::Io(fault) => WriteFault::of(fault.kind()),
            csv::ErrorKind::OutOfMemory => WriteFault::OutOfMemory,
            _ => WriteFault::Failed,
        }
    }
}

impl From<io::Error> for WriteFault {
    fn from(fault: io::Error) -> Self {
        WriteFault::of(fault.kind())
    }
}

impl From<AllocError> for WriteFault {
    fn from(_refused: AllocError) -> Self {
        WriteFault::OutOfMemory
    }
}

fn note(alloc: Global, path: &str, fault: WriteFault) -> Result<String, AllocError> {
    let path = escaped(alloc, path)?;
    let (meaning, help) = (fault.meaning(), fault.help());
    let text = format!(in alloc; "{path}: file: {meaning}\n  help: {help}\n")?;
    Ok(text)
}
