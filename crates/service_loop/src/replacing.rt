//! Files that are replaced whole.
use service_edges::{Lasting, SystemFile, WrittenDown};
use std::alloc::{AllocError, Global};
use std::fs::{File, OpenFile};
use std::io::{ErrorKind, Read, Write};
use std::rt::Files;
use std::{fs, io};

/// Replaces a file by these bytes: whoever reads it finds the old ones or the new ones.
pub(crate) fn replace<R: Files>(rt: &R, alloc: Global, path: &str, bytes: &[u8]) -> io::Result<()> {
    let beside = beside(alloc, path)?;
    let mut file = new_file(rt, beside.as_str())?;
    file.write_all(bytes)?;
    fs::rename(rt, beside.as_str(), path)
}

/// Replaces a file by these bytes: whoever reads it finds the old ones or the new ones, also where the machine stops
/// meanwhile, and the new ones once this is done.
pub(crate) fn replace_for_good<R: Files>(
    rt: &R,
    alloc: Global,
    path: &str,
    bytes: &[u8],
) -> io::Result<()> {
    let beside = beside(alloc, path)?;
    let file = SystemFile::new(new_file(rt, beside.as_str())?);
    take_place(rt, WrittenDown::with(file, bytes)?, beside.as_str(), path)?;
    sync_folder(rt, path);
    Ok(())
}

// Gives a file, all of whose bytes stay, the path of another one.
fn take_place<R: Files, F: Lasting>(
    rt: &R,
    _file: WrittenDown<F>,
    beside: &str,
    path: &str,
) -> io::Result<()> {
    fs::rename(rt, beside, path)
}

/// Looks whether a new file can be written where one stands before it takes the place of the file at a path.
pub(crate) fn try_place<R: Files>(rt: &R, alloc: Global, path: &str) -> io::Result<()> {
    let beside = beside(alloc, path)?;
    new_file(rt, beside.as_str())?;
    fs::remove_file(rt, beside.as_str())
}

// A file of its own at a path, in place of what an earlier write left there: no link is followed, and nothing waits.
fn new_file<R: Files>(rt: &R, path: &str) -> io::Result<R::File> {
    match fs::remove_file(rt, path) {
        Err(fault) if fault.kind() != ErrorKind::NotFound => Err(fault),
        _ => File::create_new(rt, path),
    }
}

/// Whether the file at a path holds just this text; one that isn't there holds an empty one.
pub(crate) fn holds<R: Files>(rt: &R, alloc: Global, path: &str, text: &str) -> io::Result<bool> {
    match fs::open(rt, path) {
        Ok(file) => gives(alloc, file, text.as_bytes()),
        Err(fault) if fault.kind() == ErrorKind::NotFound => Ok(text.is_empty()),
        Err(fault) => Err(fault),
    }
}

// Whether a file gives just these bytes.
fn gives<F: Read + Drop>(alloc: Global, file: F, bytes: &[u8]) -> io::Result<bool> {
    let mut given = Vec::new(alloc);
    let most = (bytes.len() as u64).saturating_add(1);
    file.take(most).read_to_end(&mut given)?;
    Ok(given.as_slice() == bytes)
}

/// The path of a new file, before it takes another one's place.
fn beside(alloc: Global, path: &str) -> Result<String, AllocError> {
    let text = format!(in alloc; "{path}.new")?;
    Ok(text)
}

// Has the system write down a file's new name too. Where it can't, the file is replaced all the same, but an earlier one
// may stand there once the machine lost its power.
fn sync_folder<R: Files>(rt: &R, path: &str) {
    if let Ok(folder) = fs::open(rt, folder_of(path)) {
        let _ = folder.sync_all();
    }
}

fn folder_of(path: &str) -> &str {
    match path.rsplit_once('/') {
        Some(("", _)) => "/",
        Some((folder, _)) => folder,
        None => ".",
    }
}
