//! What is told where set values can't be kept.
ghost use Rattle.command_files.specs.Printing.{Fails};

use commands::{tell_no_memory, write_lines};
use refusal_notes::escaped;
use service_loop::StateFault;
use std::alloc::{AllocError, Global};
use std::io::Write;

/// The status where set values can't be kept.
const UNKEPT: u8 = 1;

/// Tells that set values can't be kept in the file at a path, explains it, and gives the status.
pub(crate) fn tell_unkept<R: Eprint, W: Write>(
    rt: &R,
    alloc: Global,
    quiet: bool,
    path: &str,
    fault: StateFault,
    out: &mut W,
) -> u8
    ensures { Fails (W.contents out.old) (W.contents out.new) result }
{
    match unkept_line(alloc, path, fault.word()) {
        Ok(line) => {
            let status = write_lines(out, line.as_bytes(), UNKEPT);
            if !quiet {
                explain_unkept(rt, alloc, path, fault);
            }
            status
        }
        Err(AllocError) => tell_no_memory(out),
    }
}

fn unkept_line(alloc: Global, path: &str, why: &str) -> Result<String, AllocError> {
    let path = escaped(alloc, path)?;
    let text = format!(in alloc; "refused: state {path} {why}\n")?;
    Ok(text)
}

/// Prints why set values can't be kept in a file.
fn explain_unkept<R: Eprint>(rt: &R, alloc: Global, path: &str, fault: StateFault) {
    if let Ok(text) = unkept_note(alloc, path, fault) {
        let _ = rt.eprint(text.as_str());
    }
}

fn unkept_note(alloc: Global, path: &str, fault: StateFault) -> Result<String, AllocError> {
    let path = escaped(alloc, path)?;
    let (word, meaning, help) = (fault.word(), fault.meaning(), fault.help());
    let text = format!(in alloc; "state {path}: {word}: {meaning}\n  help: {help}\n")?;
    Ok(text)
}
