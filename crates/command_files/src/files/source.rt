//! The text of a file or of standard input.
ghost use Rattle.std.specs.Prelude.{◌≡◌, ◌≤◌, ℕ, List, length, string_bytes, IfErr, IfOk, IfSome};
ghost use Rattle.command_files.specs.Tried.{IsHindered};

use refusal_notes::FileFault;
use std::alloc::Global;
use std::fs;
use std::io::{ErrorKind, Read};
use std::rt::Files;

/// The path of standard input.
pub const STANDARD_INPUT: &str = "-";

/// The most bytes that a file may have.
const LARGEST_FILE: u64 = 16_777_216;

/// Why a file isn't taken: it can't be used, or memory was refused.
#[derive(Clone, Copy)]
pub enum SourceFault {
    Unusable(FileFault),
    OutOfMemory,
}

/// The text of a file, read to its end. Where it isn't had, it is too long or no UTF-8, memory was refused, or a read
/// failed, of which a reader tells contracts nothing.
pub fn read_text<R: Read + Drop>(alloc: Global, reader: R) -> Result<String, SourceFault>
    ensures small { IfOk result (λ text. length (string_bytes text) ≤ LARGEST_FILE) }
    ensures whole { IfOk result (λ text. IfSome (R.remaining reader) (λ bytes. string_bytes text ≡ bytes)) }
    ensures refused { IfErr result (λ fault. IfSome (R.remaining reader) (IsHindered fault)) }
{
    let mut bytes = Vec::new(alloc);
    match reader.take(LARGEST_FILE + 1).read_to_end(&mut bytes) {
        Ok(_) if bytes.len() as u64 > LARGEST_FILE => {
            Err(SourceFault::Unusable(FileFault::TooLarge))
        }
        Ok(_) => match String::from_utf8(bytes) {
            Ok(text) => Ok(text),
            Err(fault) => {
                let before = fault.utf8_error().valid_up_to();
                Err(SourceFault::Unusable(FileFault::NotUtf8(before)))
            }
        },
        Err(fault) => Err(SourceFault::of(fault.kind())),
    }
}

impl SourceFault {
    /// Of a file that can't be opened or read.
    pub(crate) fn of(kind: ErrorKind) -> SourceFault
        ensures { (bytes : List ℕ) → IsHindered result bytes }
    {
        match kind {
            ErrorKind::OutOfMemory => SourceFault::OutOfMemory,
            ErrorKind::NotFound => SourceFault::Unusable(FileFault::NotFound),
            ErrorKind::NotADirectory => SourceFault::Unusable(FileFault::NoFolder),
            ErrorKind::IsADirectory => SourceFault::Unusable(FileFault::Folder),
            ErrorKind::PermissionDenied => SourceFault::Unusable(FileFault::NotAllowed),
            _ => SourceFault::Unusable(FileFault::Unreadable),
        }
    }
}

/// The text of the file at a path; `-` is standard input.
pub fn read_file(
    rt: &(impl Input + AllocGlobal + Files),
    alloc: Global,
    path: &str,
) -> Result<String, SourceFault>
    ensures small { IfOk result (λ text. length (string_bytes text) ≤ LARGEST_FILE) }
{
    if path == STANDARD_INPUT {
        return read_text(alloc, rt.reader());
    }
    match fs::open(rt, path) {
        Ok(file) => read_text(alloc, file),
        Err(fault) => Err(SourceFault::of(fault.kind())),
    }
}

/// The text of the file at a path, looked at while a service runs: of a plain file alone, since others may keep it waiting.
pub fn read_again(
    rt: &(impl AllocGlobal + Files),
    alloc: Global,
    path: &str,
) -> Result<String, SourceFault> {
    match fs::metadata(rt, path) {
        Ok(found) if found.is_file() => read_plain(rt, alloc, path),
        Ok(found) if found.is_dir() => Err(SourceFault::Unusable(FileFault::Folder)),
        Ok(_) => Err(SourceFault::Unusable(FileFault::Unreadable)),
        Err(fault) => Err(SourceFault::of(fault.kind())),
    }
}

fn read_plain(
    rt: &(impl AllocGlobal + Files),
    alloc: Global,
    path: &str,
) -> Result<String, SourceFault> {
    match fs::open(rt, path) {
        Ok(file) => read_text(alloc, file),
        Err(fault) => Err(SourceFault::of(fault.kind())),
    }
}

/// The text of the file at a path, that a service keeps: none where there is no such file yet.
pub fn read_kept(
    rt: &(impl AllocGlobal + Files),
    alloc: Global,
    path: &str,
) -> Result<String, SourceFault>
    ensures small { IfOk result (λ text. length (string_bytes text) ≤ LARGEST_FILE) }
{
    match fs::open(rt, path) {
        Ok(file) => read_text(alloc, file),
        Err(fault) if fault.kind() == ErrorKind::NotFound => Ok(String::new(alloc)),
        Err(fault) => Err(SourceFault::of(fault.kind())),
    }
}
