//! What a device shows of what it took.
ghost use Rattle.std.specs.Prelude.{◌≡◌, drop, option_map};
ghost use Rattle.service.specs.ReadBack.{begins_with, compared, registers_of, shown_at, words_of};

use modbus_frame::Words;

/// The registers of a point.
#[derive(Clone, Copy, Debug, PartialEq, Eq)]
pub enum Registers {
    One(u16),
    Two(u16, u16),
    Four(u16, u16, u16, u16),
}

/// A device shows in the registers of an output something else than it took.
#[derive(Clone, Copy, Debug, PartialEq, Eq)]
pub struct Difference {
    /// What it took.
    pub wrote: Registers,
    /// What it shows.
    pub shows: Registers,
}

/// What a device shows in the registers of an output.
#[derive(Clone, Copy)]
pub(crate) enum Shown {
    /// What it took.
    Same,
    Other(Difference),
}

impl Registers {
    /// Their words, in order.
    pub fn words(self) -> Words
        ensures { result ≡ words_of self }
    {
        match self {
            Registers::One(word) => Words::from_few(&[word]),
            Registers::Two(first, second) => Words::from_few(&[first, second]),
            Registers::Four(first, second, third, fourth) => {
                Words::from_few(&[first, second, third, fourth])
            }
        }
    }
}

/// What a device took, beside what it shows in as many registers; None where they differ and are no registers of a point.
pub(crate) fn compared(wrote: &[u16], shows: &[u16]) -> Option<Shown>
    ensures { result ≡ compared wrote.now shows.now }
{
    if wrote == shows {
        return Some(Shown::Same);
    }
    let wrote = registers_of(wrote)?;
    let shows = registers_of(shows)?;
    Some(Shown::Other(Difference { wrote, shows }))
}

fn registers_of(words: &[u16]) -> Option<Registers>
    ensures { result ≡ registers_of words.now }
{
    match words {
        [word] => Some(Registers::One(*word)),
        [first, second] => Some(Registers::Two(*first, *second)),
        [first, second, third, fourth] => {
            Some(Registers::Four(*first, *second, *third, *fourth))
        }
        _ => None,
    }
}

/// So many registers from an address on, of a block that was read from another; None where it hasn't all of them.
pub(crate) fn shown_at(from: u16, block: &[u16], address: u16, count: usize) -> Option<&[u16]>
    ensures { option_map (λ words. words.now) result ≡ shown_at from block.now address count }
{
    if address < from {
        return None;
    }
    let left = left_of(block, usize::from(address - from));
    if left.len() < count {
        return None;
    }
    Some(left.split_at(count).0)
}

/// What comes after so many words.
fn left_of(block: &[u16], count: usize) -> &[u16]
    ensures { result.now ≡ drop count block.now }
{
    if count < block.len() {
        block.split_at(count).1
    } else {
        &[]
    }
}

/// Whether words begin with their model's ID.
pub(crate) fn begins_with(model: u16, words: &[u16]) -> bool
    ensures { result ≡ begins_with model words.now }
{
    match words {
        [first, ..] => *first == model,
        [] => false,
    }
}
