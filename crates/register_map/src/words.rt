//! Words in memory, read as registers.
ghost use Rattle.std.specs.Prelude.{◌≡◌, length};
ghost use Rattle.register_map.specs.Reads.{answer_of};
ghost use Rattle.register_map.specs.Search.{answer_from};

use crate::{ReadFault, Registers};

/// Words as registers from address 0 on.
#[derive(Drop)]
pub(crate) struct WordList<'a> {
    pub(crate) words: &'a [u16],
}

impl Registers for WordList<'_> {
    ghost use Rattle.std.specs.Prelude.{◌≡◌, None};
    ghost use Rattle.register_map.specs.Search.{answer_from};

    ghost reads = { λ s address count answer t. (answer ≡ answer_from s.words.now address count) × (s ≡ t) };

    ghost faults = { λ _. None };

    fn read(&mut self, addr: u16, out: &mut [u16]) -> Result<(), ReadFault> {
        copy_words(self.words, addr, out)
    }
}

/// Fills `out` with the words from `start` on. Where there are fewer the read is refused.
pub(crate) fn copy_words(words: &[u16], start: u16, out: &mut [u16]) -> Result<(), ReadFault>
    ensures { answer_of result out.new ≡ answer_from words.now start (length out.old) }
{
    let start = usize::from(start);
    match words.get(start..start + out.len()) {
        Some(found) => {
            out.copy_from_slice(found);
            Ok(())
        }
        None => Err(ReadFault::Refused),
    }
}
