//! The instructions of a program, and which of them stands at an address.
ghost use Rattle.std.specs.Prelude.{◌≡◌, IfOk, length, nat_eq};
ghost use Rattle.std.specs.HashMap.{get};
ghost use Rattle.facts.specs.Flow.{number_at};
ghost use Rattle.facts.specs.Addresses.{Tells};

use point_types::Items;
use scan_code::Op;
use std::alloc::{AllocError, Global};
use std::collections::HashMap;
use std::marker::Model;

/// The instructions of a program with their addresses. Which one stands at an address is looked up in
/// one step, so that a program with many jumps is judged in little time.
#[derive(Drop)]
pub struct Instructions {
    entries: Items<(usize, Op)>,
    numbers: HashMap<usize, usize>,
}

impl Model for Instructions {
    ghost use Rattle.std.specs.Prelude.{ℕ, List, nat_eq};
    ghost use Rattle.std.specs.HashMap.{get};
    ghost use Rattle.scan_code.specs.declared.op.Op.{Op as Instruction};
    ghost use Rattle.facts.specs.Addresses.{Tells};

    ghost Value = { List (ℕ × Instruction) };

    ghost view = { λ code. code.entries };

    ghost invariant = { λ code. Tells (get nat_eq code.numbers) code.entries 0 };
}

impl Instructions {
    /// The instructions of a list, each with its address.
    pub fn of(alloc: Global, entries: Items<(usize, Op)>) -> Result<Self, AllocError>
        ensures { IfOk result (λ code. code ≡ entries) }
    {
        let numbers = numbers_of(alloc, entries.as_slice())?;
        Ok(Instructions { entries, numbers })
    }

    /// The instructions, with their addresses.
    pub fn as_slice(&self) -> &[(usize, Op)]
        ensures { result.now ≡ self.now }
    {
        self.entries.as_slice()
    }

    /// How many instructions there are.
    pub fn len(&self) -> usize
        ensures { result ≡ length self.now }
    {
        self.entries.len()
    }

    /// The number of the first instruction at an address.
    pub fn number_at(&self, address: usize) -> Option<usize>
        ensures { result ≡ number_at self.now 0 address }
    {
        self.numbers.get(&address).copied()
    }
}

/// The number of the first instruction at each address. It begins with the last instruction, since what
/// is put in later counts.
fn numbers_of(alloc: Global, entries: &[(usize, Op)]) -> Result<HashMap<usize, usize>, AllocError>
    ensures { IfOk result (λ numbers. Tells (get nat_eq numbers) entries.now 0) }
{
    let mut numbers = HashMap::new(alloc);
    let mut n = entries.len();
    while n > 0 {
        n -= 1;
        numbers.insert(entries[n].0, n)?;
    }
    Ok(numbers)
}
