//! What devices took last.
use gateway::{Core, DEPTH};
use service::{OutputState, Service};
use service_alarms::fitted_number;
use std::alloc::{AllocError, Global};

/// What the device of each output took last.
#[derive(Drop)]
pub(crate) struct TakenOutputs {
    numbers: Vec<Option<TakenNumber>>,
}

/// A number that a device took.
#[derive(Clone, Copy)]
pub(crate) struct TakenNumber {
    /// In the unit of the tag's exponent.
    pub number: i64,
    /// When it did, in milliseconds since the start.
    at: u64,
}

impl TakenOutputs {
    /// There are no outputs.
    pub(crate) fn none(alloc: Global) -> TakenOutputs {
        TakenOutputs {
            numbers: Vec::new(alloc),
        }
    }

    /// No device took anything of so many outputs.
    pub(crate) fn new(alloc: Global, outputs: usize) -> Result<TakenOutputs, AllocError> {
        let mut numbers = Vec::with_capacity(alloc, outputs)?;
        for _ in 0..outputs {
            numbers.push(None)?;
        }
        Ok(TakenOutputs { numbers })
    }

    /// All is written that the last scan planned: of what was taken this is known now.
    pub(crate) fn note(&mut self, service: &Service) {
        for (output, number) in self.numbers.iter_mut().enumerate() {
            if let Some(taken) = taken_number(service, output) {
                *number = Some(taken);
            }
        }
    }

    /// What the device of an output took last.
    pub(crate) fn at(&self, output: usize) -> Option<TakenNumber> {
        match self.numbers.get(output) {
            Some(number) => *number,
            None => None,
        }
    }
}

impl TakenNumber {
    /// How many seconds ago that was.
    pub(crate) fn age(self, now: u64) -> u64 {
        now.saturating_sub(self.at) / 1000
    }
}

/// What the device of an output has by the last scan.
fn taken_number(service: &Service, output: usize) -> Option<TakenNumber> {
    if service.output_state(output) != Some(OutputState::Written) {
        return None;
    }
    let taken = service.taken(output)?;
    let number = planned_number(service.core(), output)?;
    Some(TakenNumber {
        number,
        at: taken.at(),
    })
}

/// The number that the last scan planned for an output: the one that the program stored, or another one by the key `fit`.
fn planned_number(core: &Core<DEPTH>, output: usize) -> Option<i64> {
    if let Some(fitted) = fitted_number(core, output) {
        return Some(fitted);
    }
    let place = core.site().outs().get(output)?;
    *core.outputs().get(*place)?
}
