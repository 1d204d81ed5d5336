//! Why set values can't be kept in a file.
use std::io::ErrorKind;

/// Why set values can't be kept in a file.
#[derive(Clone, Copy, PartialEq, Eq, Debug)]
pub enum StateFault {
    /// Another service keeps its own there.
    InUse,
    /// It was written after it was read for this start.
    Changed,
    /// Something else than a file stands there, or at the path of its lock.
    NotAFile,
    /// A folder of its path isn't there.
    NoFolder,
    /// The system doesn't allow to write there.
    Denied,
    /// The system gives another reason.
    Failed,
}

impl StateFault {
    /// That of a file that can't be made or written.
    pub(crate) fn of(kind: ErrorKind) -> StateFault {
        match kind {
            ErrorKind::NotFound | ErrorKind::NotADirectory => StateFault::NoFolder,
            ErrorKind::PermissionDenied | ErrorKind::ReadOnlyFilesystem => StateFault::Denied,
            _ => StateFault::Failed,
        }
    }

    /// Its word, as it is printed.
    pub fn word(self) -> &'static str {
        match self {
            StateFault::InUse => "InUse",
            StateFault::Changed => "Changed",
            StateFault::NotAFile => "NotAFile",
            StateFault::NoFolder => "NoFolder",
            StateFault::Denied => "Denied",
            StateFault::Failed => "Failed",
        }
    }

    /// What is wrong.
    pub fn meaning(self) -> &'static str {
        match self {
            StateFault::InUse => "another service keeps its set values there",
            StateFault::Changed => "it was written after it was read for this start",
            StateFault::NotAFile => {
                "something else than a file stands there, or at that path with .lock after it"
            }
            StateFault::NoFolder => "a folder of its path isn't there",
            StateFault::Denied => "the system doesn't allow to write files in its folder",
            StateFault::Failed => "the system can't write files in its folder",
        }
    }

    /// What to do about it.
    pub fn help(self) -> &'static str {
        match self {
            StateFault::InUse => "end the other service, or give a file of its own by --state",
            StateFault::Changed => "start again",
            StateFault::NotAFile => "give the path of a file of its own by --state",
            StateFault::NoFolder => {
                "make the folder, or look for a slip in the path, which begins at the folder where you are"
            }
            StateFault::Denied => {
                "give the right to write in that folder, or give a file in another one by --state"
            }
            StateFault::Failed => "look whether its disk works and has room",
        }
    }
}
