//! The program that a service accepted last, as it is kept.
use crate::files::source::{SourceFault, read_again};
use refusal_notes::{FileFault, escaped};
use service_texts::{program_in, program_path};
use std::alloc::{AllocError, Global};
use std::rt::Files;

/// Why a text is none that was kept.
const CHANGED: &str = "it isn't as it was written";

/// The program that is kept beside a file of set values; none where no such file is there, where it isn't whole, of which
/// standard error is told unless `quiet`, or where memory was refused.
pub fn read_kept_program<R: Eprint + AllocGlobal + Files>(
    rt: &R,
    alloc: Global,
    state: &str,
    quiet: bool,
) -> Option<String> {
    let Ok(path) = program_path(alloc, state) else {
        return None;
    };
    match read_again(rt, alloc, path.as_str()) {
        Ok(text) => whole_program(rt, alloc, path.as_str(), text.as_str(), quiet),
        Err(SourceFault::Unusable(FileFault::NotFound)) => None,
        Err(SourceFault::Unusable(fault)) => {
            warn(rt, alloc, path.as_str(), fault.meaning(), quiet);
            None
        }
        Err(SourceFault::OutOfMemory) => None,
    }
}

/// The program in the text at a path, where it is whole.
fn whole_program<R: Eprint>(
    rt: &R,
    alloc: Global,
    path: &str,
    text: &str,
    quiet: bool,
) -> Option<String> {
    match program_in(alloc, text) {
        Ok(Some(program)) => String::from_str(alloc, program).ok(),
        Ok(None) => {
            warn(rt, alloc, path, CHANGED, quiet);
            None
        }
        Err(AllocError) => None,
    }
}

/// Warns that a kept program can't run. Where that fails, or memory for it is refused, nothing more comes of it.
fn warn<R: Eprint>(rt: &R, alloc: Global, path: &str, why: &str, quiet: bool) {
    if quiet {
        return;
    }
    if let Ok(text) = warning(alloc, path, why) {
        let _ = rt.eprint(text.as_str());
    }
}

fn warning(alloc: Global, path: &str, why: &str) -> Result<String, AllocError> {
    let path = escaped(alloc, path)?;
    let text = format!(in alloc;
        "{path}: warning: the program that was kept here can't run: {why}\n  help: correct PROGRAM: once it is accepted, it is kept here\n"
    )?;
    Ok(text)
}
