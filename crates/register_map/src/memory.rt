//! Registers in memory, for tests of what reads a device.
ghost use Rattle.std.specs.Prelude.{◌≡◌, ℕ, List, IfOk};
ghost use Rattle.register_map.specs.Reads.{answer_of, is_fault};
ghost use Rattle.register_map.specs.Memory.{due_fault, next_planned, next_faults};

use crate::words::copy_words;
use crate::{ReadFault, Registers};
use std::alloc::{AllocError, Global};
use std::marker::Model;

/// Registers in memory. Reads of others than theirs are [`ReadFault::Refused`].
#[derive(Debug, Drop)]
pub struct MemRegisters {
    start: u16,
    words: Vec<u16>,
    planned: Option<PlannedFault>,
    faults: u64,
}

/// A read of [`MemRegisters`] that gives a fault, whatever it reads.
#[derive(Clone, Copy, Debug, PartialEq, Eq)]
pub struct PlannedFault {
    /// How many reads come before it.
    pub reads_before: u64,
    /// What it answers.
    pub fault: ReadFault,
}

impl Model for MemRegisters {
    ghost use Rattle.register_map.specs.Memory.{Memory};

    ghost Value = { Memory };

    ghost view = { λ m. record { start = m.start; words = m.words.items; planned = m.planned; faults = m.faults } };
}

impl MemRegisters {
    /// Registers that hold these words, the first at the address `start`, and one read that gives a fault, if any.
    ///
    /// # Errors
    /// Where there is no memory for the words.
    pub fn new(
        alloc: Global,
        start: u16,
        words: &[u16],
        planned: Option<PlannedFault>,
    ) -> Result<Self, AllocError>
        ensures { IfOk result (λ m. m ≡ record { start = start; words = words.now; planned = planned; faults = 0 }) }
    {
        Ok(MemRegisters {
            start,
            words: words.to_vec(alloc)?,
            planned,
            faults: 0,
        })
    }

    /// How many reads so far have failed, or were of a single register and refused. It stays at its greatest number.
    pub fn faults(&self) -> u64
        ensures { result ≡ self.now.faults }
    {
        self.faults
    }
}

impl Registers for MemRegisters {
    ghost use Rattle.register_map.specs.Memory.{AnswersRead, told_faults};

    ghost reads = { AnswersRead };

    ghost faults = { told_faults };

    fn read(&mut self, addr: u16, out: &mut [u16]) -> Result<(), ReadFault> {
        let outcome = match due(&mut self.planned) {
            Some(fault) => Err(fault),
            None => match addr.checked_sub(self.start) {
                Some(offset) => copy_words(&self.words, offset, out),
                None => Err(ReadFault::Refused),
            },
        };
        count(&mut self.faults, &outcome, out.len());
        outcome
    }
}

/// The fault of the read that is made now, if one is planned for it.
fn due(planned: &mut Option<PlannedFault>) -> Option<ReadFault>
    ensures fault { result ≡ due_fault planned.old }
    ensures next { planned.new ≡ next_planned planned.old }
{
    let plan = (*planned)?;
    if plan.reads_before == 0 {
        *planned = None;
        return Some(plan.fault);
    }
    *planned = Some(PlannedFault {
        reads_before: plan.reads_before - 1,
        fault: plan.fault,
    });
    None
}

/// Counts a read of so many registers, where it is a fault.
fn count(faults: &mut u64, outcome: &Result<(), ReadFault>, registers: usize)
    ensures { (words : List ℕ) → faults.new ≡ next_faults faults.old (is_fault registers (answer_of outcome.now words)) }
{
    let faulty = match outcome {
        Ok(()) => false,
        Err(ReadFault::Failed) => true,
        Err(ReadFault::Refused) => registers == 1,
    };
    if faulty {
        *faults = faults.saturating_add(1);
    }
}
