//! What is told of words that are no command line.
use crate::words::arguments::command;
use clap::Error;
use clap::error::ErrorKind;
use commands::tell_no_memory;
use refusal_notes::escaped;
use std::alloc::{AllocError, Global};
use std::io::Write;

/// Has `clap` tell what is wrong with the words, and gives the status. It shows words as they are: control characters are
/// escaped before, so that no word can pass for another line.
pub(crate) fn tell_unparsed<W: Write>(
    rt: &(impl Print + Eprint),
    alloc: Global,
    words: &[String],
    fault: &Error,
    out: &mut W,
) -> u8 {
    match fault_of_escaped(alloc, words) {
        Ok(Some(shown)) => tell_usage(rt, &shown, out),
        Ok(None) => tell_usage(rt, fault, out),
        Err(AllocError) => tell_no_memory(out),
    }
}

/// Why the words are no command line, once their control characters are escaped.
fn fault_of_escaped(alloc: Global, words: &[String]) -> Result<Option<Error>, AllocError> {
    let mut shown = Vec::new(alloc);
    push_escaped(alloc, &mut shown, words)?;
    let command = command(alloc)?;
    match command.try_get_matches_from(shown.as_slice()) {
        Ok(_) => Ok(None),
        Err(fault) => Ok(Some(fault)),
    }
}

fn push_escaped(
    alloc: Global,
    shown: &mut Vec<String>,
    words: &[String],
) -> Result<(), AllocError> {
    for word in words {
        shown.push(escaped(alloc, word.as_str())?)?;
    }
    Ok(())
}

/// Has `clap` tell what is wrong with the words, or the help that they ask for, and gives the status.
fn tell_usage<W: Write>(rt: &(impl Print + Eprint), fault: &Error, out: &mut W) -> u8 {
    if fault.kind() == ErrorKind::OutOfMemory {
        return tell_no_memory(out);
    }
    match fault.print(rt) {
        Err(_) if fault.exit_code() == 0 => 1,
        _ => fault.exit_code() as u8,
    }
}

/// Has `clap` tell why the words are no command line, and gives the status.
pub(crate) fn tell_misuse<W: Write>(
    rt: &(impl Print + Eprint),
    alloc: Global,
    why: &str,
    out: &mut W,
) -> u8 {
    match misuse_fault(alloc, why) {
        Ok(fault) => tell_usage(rt, &fault, out),
        Err(AllocError) => tell_no_memory(out),
    }
}

fn misuse_fault(alloc: Global, why: &str) -> Result<Error, AllocError> {
    let mut command = command(alloc)?;
    command.error(ErrorKind::ArgumentConflict, why)
}
