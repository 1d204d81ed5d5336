//! The definitions in a folder.
use crate::files::source::SourceFault;
use refusal_notes::escaped;
use std::alloc::{AllocError, AllocFailed, Global};
use std::fs::DirEntry;
use std::rt::Files;
use std::{fs, io};

/// What the name of each definition in a folder ends with.
const ENDING: &str = ".json";

/// The paths of the definitions in a folder, in the order of the bytes of their names.
pub fn definitions_in<R: Files + AllocGlobal>(
    rt: &R,
    alloc: Global,
    folder: &str,
) -> Result<Vec<String>, SourceFault> {
    let mut paths = Vec::new(alloc);
    for entry in fs::read_dir(&rt, folder)? {
        push_definition(alloc, &mut paths, &entry?)?;
    }
    paths.sort()?;
    Ok(paths)
}

/// Appends the path of an entry, where it is a definition's.
fn push_definition<R: Files>(
    alloc: Global,
    paths: &mut Vec<String>,
    entry: &DirEntry<R>,
) -> Result<(), SourceFault> {
    if entry.file_name().ends_with(ENDING) {
        let path = entry.path().to_string_lossy().to_string(alloc)?;
        paths.push(path)?;
    }
    Ok(())
}

/// Warns that there is no definition in a folder. Where that fails, or memory for it is refused, nothing more comes of it.
pub fn warn_of_none<R: Eprint>(rt: &R, alloc: Global, folder: &str) {
    if let Ok(text) = none_text(alloc, folder) {
        let _ = rt.eprint(text.as_str());
    }
}

fn none_text(alloc: Global, folder: &str) -> Result<String, AllocError> {
    let folder = escaped(alloc, folder)?;
    let text = format!(in alloc;
        "{folder}: warning: this folder has no definition\n  help: name another one: its definitions are the files whose names end with {ENDING}\n"
    )?;
    Ok(text)
}

impl From<io::Error> for SourceFault {
    fn from(fault: io::Error) -> Self {
        SourceFault::of(fault.kind())
    }
}

impl From<AllocError> for SourceFault {
    fn from(_refused: AllocError) -> Self {
        SourceFault::OutOfMemory
    }
}

impl<T: Drop> From<AllocFailed<T>> for SourceFault {
    fn from(_refused: AllocFailed<T>) -> Self {
        SourceFault::OutOfMemory
    }
}
