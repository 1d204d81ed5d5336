//! The lock by which a file of set values is one service's alone.
use crate::keeping::KeptState;
use crate::replacing::{holds, try_place};
use crate::serving::End;
use crate::state_fault::StateFault;
use std::alloc::Global;
use std::fs::{File, OpenOptions, TryLockError};
use std::io::ErrorKind;
use std::rt::Files;
use std::{fs, io};

/// The lock by which a file of set values is one service's alone. It is that of a file beside it, which stays: the file itself
/// is another one after each write. The system lets go of the lock when the service ends, in whatever way.
#[derive(Drop)]
pub(crate) struct StateLock {
    _file: File,
}

impl StateLock {
    /// The lock of a file of set values. State: another service has it, what stands at its path is no file, the file of set
    /// values isn't as it was read any more, or no file can be written in its folder; OutOfMemory.
    pub(crate) fn new<R: Files<File = File>>(
        rt: &R,
        alloc: Global,
        state: &KeptState<'_, '_>,
    ) -> Result<StateLock, End> {
        let Some(file) = ended(lock_file(rt, alloc, state.path))? else {
            return Err(End::State(StateFault::NotAFile));
        };
        if !ended(is_locked(&file))? {
            return Err(End::State(StateFault::InUse));
        }
        ended(try_place(rt, alloc, state.path))?;
        if ended(holds(rt, alloc, state.path, state.text))? {
            Ok(StateLock { _file: file })
        } else {
            Err(End::State(StateFault::Changed))
        }
    }
}

// The file that is locked for the file at a path, which is made where it isn't there; none where something else stands there.
fn lock_file<R: Files<File = File>>(rt: &R, alloc: Global, path: &str) -> io::Result<Option<File>> {
    let path = format!(in alloc; "{path}.lock")?;
    match File::create_new(rt, path.as_str()) {
        Ok(file) => Ok(Some(file)),
        Err(fault) if fault.kind() == ErrorKind::AlreadyExists => standing_file(rt, path.as_str()),
        Err(fault) => Err(fault),
    }
}

// The file at a path; none where a link stands there, or what waits when it is opened.
fn standing_file<R: Files<File = File>>(rt: &R, path: &str) -> io::Result<Option<File>> {
    if !fs::symlink_metadata(rt, path)?.is_file() {
        return Ok(None);
    }
    let file = OpenOptions::new().write(true).open(rt, path)?;
    Ok(Some(file))
}

// Whether a file is locked for this service from now on; else another one has locked it.
fn is_locked(file: &File) -> io::Result<bool> {
    match file.try_lock() {
        Ok(()) => Ok(true),
        Err(TryLockError::WouldBlock) => Ok(false),
        Err(TryLockError::Error(fault)) => Err(fault),
    }
}

fn ended<T>(done: io::Result<T>) -> Result<T, End> {
    match done {
        Ok(done) => Ok(done),
        Err(fault) => Err(End::at_state(&fault)),
    }
}
