//! Files of a command line that the command writes, and that are also another one of it: one of both would be lost.
use clap::ArgMatches;
use std::alloc::{AllocError, Global};
use std::fs;
use std::os::unix::fs::MetadataExt;
use std::rt::Files;

/// The options whose file a command writes, each with what follows its path where the command writes there too, and with what
/// is told where one of these is another file of the command.
const WRITTEN: [Written; 8] = [
    Written {
        option: "trace",
        ending: "",
        misuse: "'--trace' is a file that the command reads",
    },
    Written {
        option: "report",
        ending: "",
        misuse: "'--report' is a file that the command reads",
    },
    Written {
        option: "state",
        ending: "",
        misuse: "'--state' is another file of the command",
    },
    Written {
        option: "state",
        ending: ".program",
        misuse: KEPT_OVER,
    },
    Written {
        option: "state",
        ending: ".new",
        misuse: MADE_OVER,
    },
    Written {
        option: "state",
        ending: ".lock",
        misuse: MADE_OVER,
    },
    Written {
        option: "status-file",
        ending: "",
        misuse: "'--status-file' is a file that the command reads",
    },
    Written {
        option: "status-file",
        ending: ".new",
        misuse: "'--status-file PATH' is written as PATH.new first, and that is a file that the command reads",
    },
];

/// What is told of the file in which the program is kept, beside that of set values.
const KEPT_OVER: &str =
    "'--state PATH' keeps the program in PATH.program, and that is another file of the command";

/// What is told of those that are made beside it for a while.
const MADE_OVER: &str =
    "'--state PATH' makes PATH.new and PATH.lock, and one of them is another file of the command";

/// A file that a command writes.
#[derive(Clone, Copy)]
struct Written {
    option: &'static str,
    ending: &'static str,
    misuse: &'static str,
}

impl Written {
    /// Its path, where the option is given.
    fn path(self, alloc: Global, matches: &ArgMatches<'_>) -> Result<Option<String>, AllocError> {
        let Some(path) = matches.get_str(self.option) else {
            return Ok(None);
        };
        let ending = self.ending;
        let path = format!(in alloc; "{path}{ending}")?;
        Ok(Some(path))
    }
}

/// Why the files that a command writes can't be: one is read by the command, or it is another one of them.
pub(crate) fn misuse_of_files<R: Files>(
    rt: &R,
    alloc: Global,
    matches: &ArgMatches<'_>,
) -> Result<Option<&'static str>, AllocError> {
    for written in WRITTEN {
        if let Some(path) = written.path(alloc, matches)? {
            if is_read(rt, matches, path.as_str()) {
                return Ok(Some(written.misuse));
            }
        }
    }
    if are_one_file(rt, matches, "trace", "report") {
        return Ok(Some("'--trace' and '--report' are one file"));
    }
    misuse_of_kept(rt, alloc, matches)
}

/// The same of the two files that a service keeps.
fn misuse_of_kept<R: Files>(
    rt: &R,
    alloc: Global,
    matches: &ArgMatches<'_>,
) -> Result<Option<&'static str>, AllocError> {
    if are_one_file(rt, matches, "state", "status-file") {
        return Ok(Some("'--state' and '--status-file' are one file"));
    }
    for written in WRITTEN {
        if written.option == "state" {
            if let Some(path) = written.path(alloc, matches)? {
                if is_of_status(rt, alloc, matches, path.as_str())? {
                    return Ok(Some(written.misuse));
                }
            }
        }
    }
    Ok(None)
}

/// Whether a file is that of the service's status, or the one that it is written as first.
fn is_of_status<R: Files>(
    rt: &R,
    alloc: Global,
    matches: &ArgMatches<'_>,
    path: &str,
) -> Result<bool, AllocError> {
    for written in WRITTEN {
        if written.option == "status-file" {
            if let Some(status) = written.path(alloc, matches)? {
                if are_one(rt, path, status.as_str()) {
                    return Ok(true);
                }
            }
        }
    }
    Ok(false)
}

/// Whether the files of two options are one.
fn are_one_file<R: Files>(rt: &R, matches: &ArgMatches<'_>, option: &str, other: &str) -> bool {
    match (matches.get_str(option), matches.get_str(other)) {
        (Some(path), Some(other)) => are_one(rt, path, other),
        _ => false,
    }
}

/// Whether a file is one that the command reads.
fn is_read<R: Files>(rt: &R, matches: &ArgMatches<'_>, path: &str) -> bool {
    let read = [
        matches.get_str("SITE"),
        matches.get_str("PROGRAM"),
        matches.get_str("plant"),
        matches.get_str("sets"),
    ];
    let defs = matches.get_strs("def").unwrap_or(&[]);
    read.iter()
        .any(|read| read.is_some_and(|read| are_one(rt, path, read)))
        || is_among(rt, path, defs)
}

/// The same of the files of definitions, those of folders among them.
pub(crate) fn misuse_of_definitions<R: Files>(
    rt: &R,
    matches: &ArgMatches<'_>,
    def_paths: &[&str],
) -> Option<&'static str> {
    for written in WRITTEN {
        if written.ending.is_empty() {
            if let Some(path) = matches.get_str(written.option) {
                if is_among(rt, path, def_paths) {
                    return Some(written.misuse);
                }
            }
        }
    }
    None
}

fn is_among<R: Files>(rt: &R, path: &str, paths: &[&str]) -> bool {
    paths.iter().any(|other| are_one(rt, path, other))
}

/// Whether two paths are of one file: they are the same text, or what stands there is one file of one device.
fn are_one<R: Files>(rt: &R, path: &str, other: &str) -> bool {
    if path == other {
        return true;
    }
    match (place_of(rt, path), place_of(rt, other)) {
        (Some(place), Some(other)) => place == other,
        _ => false,
    }
}

/// Where a file is that isn't a folder, a pipe or a device.
#[derive(Clone, Copy, PartialEq, Eq)]
struct FilePlace {
    device: u64,
    number: u64,
}

/// The place of the file at a path; None where there is none.
fn place_of<R: Files>(rt: &R, path: &str) -> Option<FilePlace> {
    let found = fs::metadata(rt, path).ok()?;
    found.is_file().then_some(FilePlace {
        device: found.dev(),
        number: found.ino(),
    })
}

/// Whether what stands at the path of a file of set values, or at that of the program beside it, is neither a file nor a folder:
/// to open that may wait for ever.
pub(crate) fn is_no_state<R: Files>(rt: &R, alloc: Global, path: &str) -> Result<bool, AllocError> {
    let program = format!(in alloc; "{path}.program")?;
    Ok(is_no_file(rt, path) || is_no_file(rt, program.as_str()))
}

fn is_no_file<R: Files>(rt: &R, path: &str) -> bool {
    match fs::metadata(rt, path) {
        Ok(found) => !found.is_file() && !found.is_dir(),
        Err(_) => false,
    }
}
