//! What is told where a file, a second process, a connection or a port isn't had.
ghost use Rattle.command_files.specs.Printing.{Fails};

use commands::{FAILED_LINK, tell_no_memory, tell_unlinked, tell_unusable, write_lines};
use modbus_frame::LinkFault;
use refusal_notes::{
    FileFault, ListenFault, Notes, RefusalNote, escaped, explain_unserved, explain_unusable,
};
use std::alloc::{AllocError, Global};
use std::io;
use std::io::{ErrorKind, Write};
use std::net::SocketAddr;

/// Writes that the file at a path can't be used, and gives the status. Control characters in the path are escaped, so that
/// it can't pass for another line.
pub fn tell_file<W: Write>(alloc: Global, path: &str, out: &mut W) -> u8
    ensures { Fails (W.contents out.old) (W.contents out.new) result }
{
    match escaped(alloc, path) {
        Ok(path) => tell_unusable(alloc, path.as_str(), out),
        Err(_) => tell_no_memory(out),
    }
}

/// Tells that the program at the path can't be started, with a note on it.
pub fn no_start<R: Eprint + AllocGlobal, W: Write>(
    rt: &R,
    alloc: Global,
    notes: &Notes<'_>,
    path: &str,
    fault: &io::Error,
    out: &mut W,
) -> u8
    ensures { Fails (W.contents out.old) (W.contents out.new) result }
{
    let why = match fault.kind() {
        ErrorKind::OutOfMemory => return tell_no_memory(out),
        ErrorKind::NotFound => FileFault::NotFound,
        ErrorKind::NotADirectory => FileFault::NoFolder,
        ErrorKind::PermissionDenied => FileFault::NotRunnable,
        _ => FileFault::NoProgram,
    };
    let status = tell_file(alloc, path, out);
    if !notes.quiet {
        explain_unusable(rt, path, why);
    }
    status
}

/// Tells that a process or a connection gives nothing.
pub(crate) fn tell_unreached<R: Eprint + AllocGlobal, W: Write>(
    rt: &R,
    alloc: Global,
    notes: &Notes<'_>,
    kind: ErrorKind,
    out: &mut W,
) -> u8
    ensures { Fails (W.contents out.old) (W.contents out.new) result }
{
    match kind {
        ErrorKind::OutOfMemory => tell_no_memory(out),
        _ => tell_lost(rt, alloc, notes, LinkFault::Read, out),
    }
}

/// Tells that a link failed, and explains it.
pub fn tell_lost<R: Eprint + AllocGlobal, W: Write>(
    rt: &R,
    alloc: Global,
    notes: &Notes<'_>,
    fault: LinkFault,
    out: &mut W,
) -> u8
    ensures { Fails (W.contents out.old) (W.contents out.new) result }
{
    let status = tell_unlinked(alloc, fault, out);
    notes.tell(rt, &RefusalNote::unlinked(alloc, fault));
    status
}

/// Tells that nothing can be served at an address, explains it, and gives the status.
pub fn tell_unserved<R: Eprint + AllocGlobal, W: Write>(
    rt: &R,
    alloc: Global,
    notes: &Notes<'_>,
    address: SocketAddr,
    kind: ErrorKind,
    out: &mut W,
) -> u8
    ensures { Fails (W.contents out.old) (W.contents out.new) result }
{
    let fault = listen_fault(kind);
    match unserved_line(alloc, address, fault.word()) {
        Ok(line) => {
            let status = write_lines(out, line.as_bytes(), FAILED_LINK);
            explain_address(rt, alloc, notes, address, fault);
            status
        }
        Err(AllocError) => tell_no_memory(out),
    }
}

fn listen_fault(kind: ErrorKind) -> ListenFault {
    match kind {
        ErrorKind::AddrInUse => ListenFault::InUse,
        ErrorKind::AddrNotAvailable => ListenFault::NotAvailable,
        ErrorKind::PermissionDenied => ListenFault::Denied,
        _ => ListenFault::Failed,
    }
}

fn unserved_line(alloc: Global, address: SocketAddr, why: &str) -> Result<String, AllocError> {
    let text = format!(in alloc; "refused: listen {address} {why}\n")?;
    Ok(text)
}

/// Prints why nothing can be served at an address.
fn explain_address<R: Eprint + AllocGlobal>(
    rt: &R,
    alloc: Global,
    notes: &Notes<'_>,
    address: SocketAddr,
    fault: ListenFault,
) {
    if notes.quiet {
        return;
    }
    if let Ok(address) = format!(in alloc; "{address}") {
        explain_unserved(rt, address.as_str(), fault);
    }
}
