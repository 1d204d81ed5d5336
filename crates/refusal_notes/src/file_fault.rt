//! Why the text of a file isn't had.

/// Why a file can't be used.
#[derive(Clone, Copy, PartialEq, Eq, Debug)]
pub enum FileFault {
    NotFound,
    /// A part of its path before the last is no folder.
    NoFolder,
    Folder,
    NotAllowed,
    /// Its bytes aren't UTF-8; so many before the first one at fault are.
    NotUtf8(usize),
    /// It has more than 16,777,216 bytes.
    TooLarge,
    /// The system gives another reason.
    Unreadable,
    /// It may not be run as a program.
    NotRunnable,
    /// The system can't start it as a program.
    NoProgram,
}

impl FileFault {
    /// What is wrong.
    pub fn meaning(self) -> &'static str {
        match self {
            FileFault::NotFound => "there is no such file",
            FileFault::NoFolder => "a part of its path is no folder",
            FileFault::Folder => "it is a folder",
            FileFault::NotAllowed => "it may not be read",
            FileFault::NotUtf8(_) => "the text isn't UTF-8",
            FileFault::TooLarge => "it has more than 16,777,216 bytes",
            FileFault::Unreadable => "it can't be read to its end",
            FileFault::NotRunnable => "it may not be run as a program",
            FileFault::NoProgram => "the system can't start it as a program",
        }
    }

    /// What to do about it.
    pub fn help(self) -> &'static str {
        match self {
            FileFault::NotFound =>
                "look for a slip in the path, which begins at the folder where you are",
            FileFault::NoFolder =>
                "look for a slip in the path: what stands before a / has to be a folder",
            FileFault::Folder => "name a file in it",
            FileFault::NotAllowed => "give the right to read it, to it and to each folder above it",
            FileFault::NotUtf8(_) => "save it as UTF-8",
            FileFault::TooLarge => "look whether the path is that of another file",
            FileFault::Unreadable => "look whether its disk or its connection works",
            FileFault::NotRunnable | FileFault::NoProgram => {
                "name a program with --exe that may be run here, as by chmod +x"
            }
        }
    }
}
