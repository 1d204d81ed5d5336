//! What devices say of themselves, and whether that is what they have to say.
ghost use Rattle.std.specs.Prelude.{◌≡◌, IfNone, IfOk, IfSome, None, Some, length, slice_set, if◌then◌else◌};
ghost use Rattle.service.specs.Identity.{SaysNothing, is_right, said_by, said_in, said_of, says, wants, words_of};

use crate::identities::{Identities, Said};
use gateway::Outcome;
use service_parts::{Aim, Asked};
use service_requests::Identity;
use std::alloc::{AllocError, Global};

impl Identities {
    /// Of so many devices, none of which said anything.
    pub(crate) fn new(
        alloc: Global,
        wanted: &[Option<Identity>],
        devices: usize,
    ) -> Result<Identities, AllocError>
        ensures wanted { IfOk result (λ made. made.wanted.items ≡ wanted.now) }
        ensures nothing { IfOk result SaysNothing }
    {
        Ok(Identities {
            wanted: Vec::from_slice(alloc, wanted)?,
            last: vec![in alloc; None; devices]?,
            found: vec![in alloc; None; devices]?,
        })
    }

    /// Whether a device has to say which one it is.
    pub(crate) fn wants(&self, device: usize) -> bool
        ensures { result ≡ wants self.now device }
    {
        match self.wanted.get(device) {
            Some(Some(_)) => true,
            _ => false,
        }
    }

    /// Whether a device is the one that it has to be: it said so over the connection with this number, and nothing else since; or it
    /// has to say nothing.
    pub(crate) fn is_right(&self, device: usize, number: u64) -> bool
        ensures { result ≡ is_right self.now device number }
    {
        match self.wanted.get(device) {
            Some(Some(identity)) => self.says(device, number, identity),
            _ => true,
        }
    }

    /// Whether a device said this last, over the connection with this number.
    fn says(&self, device: usize, number: u64, identity: &Identity) -> bool
        ensures { result ≡ says self.now device number identity.now }
    {
        match self.last.get(device) {
            Some(Some(said)) => said.number == number && identity.is_said_by(&said.words),
            _ => false,
        }
    }

    /// The registers that a device said last: 64 of its common model, from the maker on; None before.
    pub(crate) fn words(&self, device: usize) -> Option<&[u16]>
        ensures some { IfSome result (λ words. words_of self.now device ≡ Some words.now) }
        ensures none { IfNone result (words_of self.now device ≡ None) }
    {
        match self.last.get(device) {
            Some(Some(said)) => Some(&said.words[2..]),
            _ => None,
        }
    }

    /// Whether this is something else than a device said last.
    pub(crate) fn is_new(&self, device: usize, said: &Option<Said>) -> bool {
        match self.last.get(device) {
            Some(last) => !is_same(last, said),
            None => false,
        }
    }

    /// A device answered the read of its common model, and said this.
    pub(crate) fn hear(&mut self, device: usize, said: Option<Said>)
        ensures last { self.new.last.items ≡ slice_set self.old.last.items device said }
        ensures found { self.new.found ≡ self.old.found }
        ensures wanted { self.new.wanted ≡ self.old.wanted }
    {
        put(&mut self.last, device, said);
    }

    /// Where the map of a device is found, it had said that.
    pub(crate) fn find_if(&mut self, is_found: bool, device: usize)
        ensures found { self.new.found.items ≡ (if is_found then slice_set self.old.found.items device (said_of self.old device) else self.old.found.items) }
        ensures sized { length self.old.found.items ≡ length self.old.last.items }
        ensures last { self.new.last ≡ self.old.last }
        ensures wanted { self.new.wanted ≡ self.old.wanted }
    {
        if is_found {
            let said = self.said(device);
            put(&mut self.found, device, said);
        }
    }

    /// What a device said last.
    fn said(&self, device: usize) -> Option<Said>
        ensures { result ≡ said_of self.now device }
    {
        match self.last.get(device) {
            Some(said) => *said,
            None => None,
        }
    }
}

fn put(told: &mut [Option<Said>], i: usize, said: Option<Said>)
    ensures put { told.new ≡ slice_set told.old i said }
    ensures len { length told.new ≡ length told.old }
{
    if i < told.len() {
        told[i] = said;
    }
}

/// Whether the same was said, over whatever connection.
fn is_same(first: &Option<Said>, second: &Option<Said>) -> bool {
    match (first, second) {
        (Some(first), Some(second)) => first.words == second.words,
        (None, None) => true,
        _ => false,
    }
}

/// What an answer to the read of a common model says; None for one that is no such model.
pub(crate) fn said_in(outcome: &Outcome, asked: &Asked) -> Option<Said>
    ensures { result ≡ said_in outcome.now asked.now }
{
    match outcome {
        Outcome::Words(words) => match asked.aim {
            Aim::Map => said_by(words.as_slice(), asked.number),
            Aim::Block(_) | Aim::Output(_) => None,
        },
        _ => None,
    }
}

fn said_by(words: &[u16], number: u64) -> Option<Said>
    ensures { result ≡ said_by words.now number }
{
    if words.len() != 66 {
        return None;
    }
    let mut own = [0; 66];
    own.copy_from_slice(words);
    Some(Said { number, words: own })
}
