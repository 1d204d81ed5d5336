//! What the search for a map needs of a device: reads of its registers.
ghost use Rattle.std.specs.Prelude.{◌≡◌, ℕ, List, Option, length};
ghost use Rattle.register_map.specs.Faults.{read_fault_word};
ghost use Rattle.register_map.specs.Reads.{Answer, answer_of, is_fault, Counts};

use std::fmt;
use thiserror::Error;

/// Why a read of registers gave no words.
#[derive(Clone, Copy, Debug, PartialEq, Eq, Error)]
pub enum ReadFault {
    /// The device answered with an exception, as for registers that it doesn't have.
    Refused,
    /// There was no answer to the read.
    Failed,
}

impl fmt::Display for ReadFault {
    fn fmt<W: fmt::Write>(&self, f: &mut fmt::Formatter<W>) -> fmt::Result {
        f.write_str(self.word())
    }
}

impl ReadFault {
    /// The fault's name, as it is printed.
    pub fn word(self) -> &'static str
        ensures { result.now ≡ read_fault_word self }
    {
        match self {
            ReadFault::Refused => "Refused",
            ReadFault::Failed => "Failed",
        }
    }
}

/// Registers of one device, 16 bits each, that can be read.
///
/// An implementation says by `reads` which answer leads from which state of it to which.
/// It says by `faults` how many of its reads so far have Failed, or were of a single register and Refused; `None` where it doesn't tell.
pub trait Registers {
    ghost reads: { Self → ℕ → ℕ → Answer → Self → Type 0 };

    ghost faults: { Self → Option ℕ };

    /// Reads the registers from `addr` on, one for each word of `out`.
    ///
    /// # Errors
    /// [`ReadFault::Refused`] where the device refused the read, [`ReadFault::Failed`] where it gave no answer. Then `out` holds no answer.
    fn read(&mut self, addr: u16, out: &mut [u16]) -> Result<(), ReadFault>
        ensures stepped { reads self.old addr (length out.old) (answer_of result out.new) self.new }
        ensures counted { Counts (faults self.old) (faults self.new) (is_fault (length out.old) (answer_of result out.new)) };
}
