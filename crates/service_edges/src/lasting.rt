//! What a disk keeps.
use std::fs::OpenFile;
use std::io;
use std::io::Write;

/// A file, and what of it stays, also where the machine loses its power.
pub trait Lasting: Write + Drop {
    ghost use Rattle.std.specs.Prelude.{ℕ, List, Option, OnOk};
    ghost use Rattle.std.specs.Io.KnownBytes.{Keeps};
    ghost use Rattle.service_edges.specs.Lasts.{Lasts};

    /// The bytes that stay, where they are known.
    ghost lasting: { Self → Option (List ℕ) };

    /// Has the disk take all that was written: from then on it stays.
    fn write_down(&mut self) -> io::Result<()>
        ensures contents { Keeps (Self.Write.contents self.old) (Self.Write.contents self.new) }
        ensures lasts { OnOk result (Lasts (lasting self.new) (Self.Write.contents self.new)) };
}

/// A file of the system, which tells contracts nothing of its bytes.
#[derive(Drop)]
pub struct SystemFile<F: Write + OpenFile + Drop> {
    file: F,
}

impl<F: Write + OpenFile + Drop> SystemFile<F> {
    /// The file that was opened.
    pub fn new(file: F) -> SystemFile<F> {
        SystemFile { file }
    }
}

impl<F: Write + OpenFile + Drop> Write for SystemFile<F> {
    fn write(&mut self, bytes: &[u8]) -> io::Result<usize> {
        self.file.write(bytes)
    }

    fn flush(&mut self) -> io::Result<()> {
        self.file.flush()
    }
}

impl<F: Write + OpenFile + Drop> Lasting for SystemFile<F> {
    ghost use Rattle.std.specs.Prelude.{None};

    ghost lasting = { λ _. None };

    fn write_down(&mut self) -> io::Result<()> {
        self.file.sync_all()
    }
}
