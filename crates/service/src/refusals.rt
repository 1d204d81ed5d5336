//! What a device refuses.
ghost use Rattle.std.specs.Prelude.{◌≡◌, [], ◌++◌, ◌∷◌, None, Some};
ghost use Rattle.service.specs.Refusing.{exception_at, is_known, is_more, is_same, refusal_by, with_refusal};

use arrayvec::ArrayVec;
use gateway::Outcome;
use service_parts::{Aim, Asked};
use std::marker::Model;

/// A read that a device answered with an exception (Modbus Application Protocol V1.1b3, section 7).
#[derive(Clone, Copy, Debug, PartialEq, Eq, Default)]
pub struct ReadRefusal {
    /// The address of the first register that was to be read.
    pub address: u16,
    /// The exception code.
    pub code: u8,
}

/// The refusals that were told of a device, each once.
#[derive(Drop)]
pub struct Refusals {
    known: ArrayVec<ReadRefusal, 8>,
}

impl Model for Refusals {
    ghost use Rattle.std.specs.Prelude.{List};
    ghost use Rattle.service.specs.declared.refusals.ReadRefusal.{ReadRefusal as RefusalValue};

    ghost Value = { List RefusalValue };

    ghost view = { λ r. r.known.items };
}

impl Refusals {
    /// Nothing was refused yet.
    pub fn new() -> Refusals
        ensures { result ≡ [] }
    {
        Refusals {
            known: ArrayVec::new(),
        }
    }

    /// One more, where it isn't known yet and there is room for it; whether that is so.
    pub fn add(&mut self, refusal: ReadRefusal) -> bool
        ensures known { self.new ≡ with_refusal refusal self.old }
        ensures told { result ≡ is_more refusal self.old }
    {
        if self.is_known(refusal) || self.known.len() >= 8 {
            return false;
        }
        self.known.push(refusal);
        true
    }

    /// What is known, in order.
    pub fn known(&self) -> &[ReadRefusal]
        ensures { result.now ≡ self.now }
    {
        &self.known
    }

    fn is_known(&self, refusal: ReadRefusal) -> bool
        ensures { result ≡ is_known refusal self.now }
    {
        self.known.iter().any(|known| is_same(*known, refusal))
    }
}

fn is_same(known: ReadRefusal, refusal: ReadRefusal) -> bool
    ensures { result ≡ is_same known refusal }
{
    known.address == refusal.address && known.code == refusal.code
}

/// What a device refused that answered so, where it was asked to read.
pub(crate) fn refusal_by(asked: &Asked, outcome: &Outcome) -> Option<ReadRefusal>
    ensures { result ≡ refusal_by asked.now.aim asked.now.address outcome.now }
{
    match asked.aim {
        Aim::Map | Aim::Block(_) => exception_at(asked.address, outcome),
        Aim::Output(_) => None,
    }
}

fn exception_at(address: u16, outcome: &Outcome) -> Option<ReadRefusal>
    ensures { result ≡ exception_at address outcome.now }
{
    match outcome {
        Outcome::Exception(exception) => Some(ReadRefusal {
            address,
            code: exception.0,
        }),
        Outcome::Words(_) | Outcome::Wrote | Outcome::Mismatch | Outcome::Stale => None,
    }
}
