//! A file whose bytes stay.
ghost use Rattle.std.specs.Prelude.{IfOk};
ghost use Rattle.std.specs.Io.KnownBytes.{Appends};
ghost use Rattle.service_edges.specs.Lasts.{Lasts};

use crate::lasting::Lasting;
use std::io;

/// A file all of whose bytes stay, also where the machine loses its power: whoever hands it in had the disk take them.
#[derive(Drop)]
pub struct WrittenDown<F: Lasting> {
    file: F,
    ghost lasts: { Lasts (F.lasting file) (F.Write.contents file) },
}

impl<F: Lasting> WrittenDown<F> {
    /// A file that gets these bytes, once they stay in it.
    pub fn with(file: F, bytes: &[u8]) -> io::Result<WrittenDown<F>>
        ensures { IfOk result (λ written. Appends (F.Write.contents file) (F.Write.contents written.file) bytes.now) }
    {
        let mut file = file;
        file.write_all(bytes)?;
        file.write_down()?;
        Ok(WrittenDown { file })
    }
}
