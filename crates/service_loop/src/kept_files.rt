//! The files of a service, over its time.
use crate::keeping::Keeping;
use crate::line_writer::LineWriter;
use crate::program_copy::ProgramCopy;
use crate::restoring::restore;
use crate::sockets::TurnTaken;
use crate::state_file::StateFile;
use crate::state_lock::StateLock;
use crate::status_file::StatusFile;
use gateway::{Core, DEPTH};
use service::Service;
use service_texts::file_line;
use std::alloc::{AllocError, Global};
use std::io::Write;
use std::rt::Files;

/// The files of a service.
#[derive(Drop)]
pub(crate) struct KeptFiles<'a> {
    alloc: Global,
    state: Option<StateFile<'a>>,
    program: Option<ProgramCopy<'a>>,
    status: Option<StatusFile<'a>>,
    /// No other service keeps its set values in the same file.
    _lock: Option<StateLock>,
}

/// What is set is kept, or it is told that it can't be. Whoever set it is told that it is done only after that.
#[derive(Drop)]
pub(crate) struct Kept {
    _by_files: (),
}

impl<'a> KeptFiles<'a> {
    /// The files, after a restart: what the file of set values says is set. The lock is that of this file.
    pub(crate) fn restored<W: Write>(
        alloc: Global,
        keeping: &Keeping<'a, '_>,
        lock: Option<StateLock>,
        service: &mut Service,
        line_writer: &mut LineWriter<'_, W>,
    ) -> Result<KeptFiles<'a>, AllocError> {
        let state = match keeping.state {
            Some(state) => {
                restore(alloc, &state, service, line_writer);
                Some(StateFile::new(alloc, &state, service.core())?)
            }
            None => None,
        };
        let program = match keeping.state {
            Some(state) => Some(ProgramCopy::new(&state)),
            None => None,
        };
        let status = match keeping.status {
            Some(path) => Some(StatusFile::new(path)),
            None => None,
        };
        Ok(KeptFiles {
            alloc,
            state,
            program,
            status,
            _lock: lock,
        })
    }

    /// A scan is over.
    pub(crate) fn scanned(&mut self) {
        if let Some(state) = &mut self.state {
            state.scanned();
        }
        if let Some(program) = &mut self.program {
            program.scanned();
        }
        if let Some(status) = &mut self.status {
            status.scanned();
        }
    }

    /// Another program runs from now on: it is kept, and its variables are.
    pub(crate) fn take_program(&mut self) {
        if let Some(state) = &mut self.state {
            state.take_program();
        }
        if let Some(program) = &mut self.program {
            program.take_program();
        }
    }

    /// Keeps the program that runs, where that may not be kept yet: the one that was taken last, or that of the start.
    pub(crate) fn keep_program<R: Files, W: Write>(
        &mut self,
        rt: &R,
        taken: Option<&str>,
        line_writer: &mut LineWriter<'_, W>,
    ) {
        let alloc = self.alloc;
        if let Some(program) = &mut self.program {
            if let Some(word) = program.keep(rt, alloc, taken) {
                line_writer.tell(file_line(alloc, "program", word));
            }
        }
    }

    /// Keeps what is set, once all that came is taken, and before whoever set it is told that it is done; and the variables
    /// that are kept.
    pub(crate) fn keep_state<R: Files, W: Write>(
        &mut self,
        _taken: TurnTaken,
        rt: &R,
        core: &Core<DEPTH>,
        line_writer: &mut LineWriter<'_, W>,
    ) -> Kept {
        let alloc = self.alloc;
        if let Some(state) = &mut self.state {
            if let Some(word) = state.keep(rt, alloc, core, line_writer.now()) {
                line_writer.tell(file_line(alloc, "state", word));
            }
        }
        Kept { _by_files: () }
    }

    /// Whether the file of set values couldn't be written when that was tried last.
    pub(crate) fn is_unkept(&self) -> bool {
        match &self.state {
            Some(state) => state.has_failed(),
            None => false,
        }
    }

    /// Whether the file that says how the service stands is to be written.
    pub(crate) fn wants_status(&self) -> bool {
        match &self.status {
            Some(status) => status.is_due(),
            None => false,
        }
    }

    /// Replaces that file by a text.
    pub(crate) fn keep_status<R: Files, W: Write>(
        &mut self,
        rt: &R,
        text: Result<String, AllocError>,
        line_writer: &mut LineWriter<'_, W>,
    ) {
        let alloc = self.alloc;
        if let Some(status) = &mut self.status {
            if let Some(word) = status.keep(rt, alloc, text) {
                line_writer.tell(file_line(alloc, "status", word));
            }
        }
    }
}
