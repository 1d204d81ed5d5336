//! What devices have of what was written to them.
ghost use Rattle.std.specs.Prelude.{◌≡◌, ℕ, IfNone, IfOk, IfSome, None, Some, length, slice_set, if◌then◌else◌};
ghost use Rattle.site_model.specs.Readings.{known_at};
ghost use Rattle.service.specs.Rewriting.{had_beside, had_without, is_held, is_of, is_recent, is_same, is_written, write_of};
ghost use Rattle.service.specs.ReadBack.{is_over, shown_in, shown_of};
ghost use Rattle.service.specs.Having.{Forgets, HasNoMore, HasNothing};
ghost use Rattle.service.specs.Identity.{IsSaidBy, SaysMoreBy, is_right, said_of, wants, words_of};
ghost use Rattle.service.specs.Pairing.{companions_of, is_had_if, is_had_over};

use crate::companions::companions_of;
use crate::identities::Identities;
use crate::own_words::said_in;
use crate::read_back::{Shown, compared, shown_at};
use gateway::Outcome;
use modbus_frame::{Request, Words};
use service_parts::{Aim, Asked};
use site_model::Site;
use std::alloc::{AllocError, Global};

/// What devices told: what they have of each output, by their acknowledgements, and what they said of themselves.
#[derive(Drop)]
pub(crate) struct HeldWrites {
    writes: Vec<Option<HeldWrite>>,
    /// The output that each one goes with, if any.
    companions: Vec<Option<usize>>,
    identities: Identities,
}

/// What a device has of an output, by its acknowledgement.
#[derive(Drop)]
pub struct HeldWrite {
    device: usize,
    /// The address of the first register.
    address: u16,
    words: Words,
    /// The number of the connection over which it went.
    number: u64,
    /// When the device's answer came, in milliseconds.
    at: u64,
}

impl HeldWrite {
    /// The words that it took.
    pub fn words(&self) -> &[u16]
        ensures { result.now ≡ self.now.words }
    {
        self.words.as_slice()
    }

    /// When its acknowledgement came, in milliseconds of the service's time.
    pub fn at(&self) -> u64
        ensures { result ≡ self.now.at }
    {
        self.at
    }
}

/// A write that may go out.
#[derive(Clone, Copy)]
pub(crate) struct Intended<'a> {
    pub(crate) device: usize,
    pub(crate) output: usize,
    pub(crate) request: &'a Request,
    /// The number of the connection over which it would go.
    pub(crate) number: u64,
}

impl HeldWrites {
    /// Nothing is had of any output of a site, and no device said anything.
    pub(crate) fn new(
        alloc: Global,
        site: &Site,
        identities: Identities,
    ) -> Result<HeldWrites, AllocError>
        ensures nothing { IfOk result HasNothing }
        ensures companions { IfOk result (λ held. held.companions.items ≡ companions_of site.now) }
        ensures identities { IfOk result (λ held. held.identities ≡ identities) }
    {
        let writes = no_writes(alloc, site.outs().len())?;
        let companions = companions_of(alloc, site)?;
        Ok(HeldWrites {
            writes,
            companions,
            identities,
        })
    }

    /// A request begins: of an output that it writes nothing is had, until its device took it.
    #[tactic(auto, using(crate::proofs::Having::had_no_more))]
    pub(crate) fn begin(&mut self, aim: Aim)
        ensures had { self.new.writes.items ≡ had_beside aim self.old.writes.items }
        ensures companions { self.new.companions.items ≡ self.old.companions.items }
        ensures identities { self.new.identities ≡ self.old.identities }
        ensures no_more { HasNoMore self.old self.new }
    {
        if let Aim::Output(output) = aim {
            put(&mut self.writes, output, None);
        }
    }

    /// A device took what a request writes for an output.
    pub(crate) fn take(&mut self, output: usize, write: HeldWrite)
        ensures taken { self.new.writes.items ≡ slice_set self.old.writes.items output (Some write) }
        ensures companions { self.new.companions.items ≡ self.old.companions.items }
        ensures identities { self.new.identities ≡ self.old.identities }
    {
        put(&mut self.writes, output, Some(write));
    }

    /// Whether the device has what is to be written: it took just that over this very connection, less than so many
    /// milliseconds ago, and no other request for the output began since.
    pub(crate) fn holds(&self, write: Intended<'_>, within: u64, now: u64) -> bool
        ensures { result ≡ is_held self.now.writes.items write.entry.output write.entry.device write.entry.request.now write.entry.number within now }
    {
        match self.writes.get(write.output) {
            Some(Some(held)) => {
                is_same(held, write.device, write.request)
                    && is_recent(held, write.number, within, now)
            }
            _ => false,
        }
    }

    /// What its device has of an output.
    pub(crate) fn taken(&self, output: usize) -> Option<&HeldWrite>
        ensures some { IfSome result (λ write. known_at self.now.writes.items output ≡ Some write.now) }
        ensures none { IfNone result (known_at self.now.writes.items output ≡ None) }
    {
        match self.writes.get(output) {
            Some(Some(write)) => Some(write),
            _ => None,
        }
    }

    /// Whether an output may be written over the connection with this number: it goes with none, or the device took what it goes
    /// with over this very connection.
    pub(crate) fn is_paired(&self, output: usize, number: u64) -> bool
        ensures { result ≡ is_had_if self.now.writes.items number (known_at self.now.companions.items output) }
    {
        match self.companion(output) {
            Some(companion) => self.is_had_over(companion, number),
            None => true,
        }
    }

    fn companion(&self, output: usize) -> Option<usize>
        ensures { result ≡ known_at self.now.companions.items output }
    {
        match self.companions.get(output) {
            Some(companion) => *companion,
            None => None,
        }
    }

    fn is_had_over(&self, output: usize, number: u64) -> bool
        ensures { result ≡ is_had_over self.now.writes.items number output }
    {
        match self.writes.get(output) {
            Some(Some(held)) => held.number == number,
            _ => false,
        }
    }

    /// What a block that was asked for shows of an output.
    pub(crate) fn shown_in(&self, asked: &Asked, block: &[u16], output: usize) -> Option<Shown>
        ensures { result ≡ shown_in self.now asked.now block.now output }
    {
        match self.writes.get(output) {
            Some(Some(write)) => shown_of(write, asked, block),
            _ => None,
        }
    }

    /// Where this is so, it isn't known any more that a device has an output.
    #[tactic(auto, using(crate::proofs::Having::had_no_more))]
    pub(crate) fn drop_if(&mut self, is_over: bool, output: usize)
        ensures dropped { self.new.writes.items ≡ (if is_over then slice_set self.old.writes.items output None else self.old.writes.items) }
        ensures companions { self.new.companions.items ≡ self.old.companions.items }
        ensures identities { self.new.identities ≡ self.old.identities }
        ensures no_more { HasNoMore self.old self.new }
    {
        if is_over {
            put(&mut self.writes, output, None);
        }
    }

    /// It isn't known any more what a device has.
    pub(crate) fn forget(&mut self, device: usize)
        ensures forgotten { Forgets device self.old self.new }
        ensures companions { self.new.companions.items ≡ self.old.companions.items }
        ensures identities { self.new.identities ≡ self.old.identities }
        ensures no_more { HasNoMore self.old self.new }
    {
        for i in 0..self.writes.len() {
            self.forget_at(device, i);
        }
    }

    #[tactic(auto, using(crate::proofs::Having::others_stay))]
    fn forget_at(&mut self, device: usize, i: usize)
        ensures len { length self.new.writes.items ≡ length self.old.writes.items }
        ensures identities { self.new.identities ≡ self.old.identities }
        ensures forgotten { self.new.writes.items ≡ slice_set self.old.writes.items i (had_without device (known_at self.old.writes.items i)) }
        ensures companions { self.new.companions.items ≡ self.old.companions.items }
    {
        if self.is_of(device, i) {
            put(&mut self.writes, i, None);
        }
    }

    /// Whether what is had of an output this device has.
    fn is_of(&self, device: usize, i: usize) -> bool
        ensures { result ≡ is_of device (known_at self.now.writes.items i) }
    {
        match self.writes.get(i) {
            Some(Some(held)) => held.device == device,
            _ => false,
        }
    }
}

impl HeldWrites {
    /// Whether a device has to say which one it is.
    pub(crate) fn wants(&self, device: usize) -> bool
        ensures { result ≡ wants self.now.identities device }
    {
        self.identities.wants(device)
    }

    /// Whether a device is the one that it has to be, by what it said over the connection with this number.
    pub(crate) fn is_right(&self, device: usize, number: u64) -> bool
        ensures { result ≡ is_right self.now.identities device number }
    {
        self.identities.is_right(device, number)
    }

    /// What a device said last of itself.
    pub(crate) fn said(&self, device: usize) -> Option<&[u16]>
        ensures some { IfSome result (λ words. words_of self.now.identities device ≡ Some words.now) }
        ensures none { IfNone result (words_of self.now.identities device ≡ None) }
    {
        self.identities.words(device)
    }

    /// An answer to the read of a device's common model; whether it says something else than the one before.
    #[tactic(auto, using(crate::proofs::Saying::says_more))]
    pub(crate) fn hear(&mut self, asked: &Asked, outcome: &Outcome) -> bool
        ensures says { SaysMoreBy (IsSaidBy outcome.now asked.now) self.old.identities self.new.identities }
        ensures found { self.new.identities.found ≡ self.old.identities.found }
        ensures writes { self.new.writes ≡ self.old.writes }
        ensures companions { self.new.companions.items ≡ self.old.companions.items }
    {
        let said = said_in(outcome, asked);
        let is_new = self.identities.is_new(asked.device, &said);
        self.identities.hear(asked.device, said);
        is_new
    }

    /// There is no common model of a device to be read; whether there was one before.
    pub(crate) fn hear_nothing(&mut self, device: usize) -> bool
        ensures no_more { HasNoMore self.old self.new }
        ensures found { self.new.identities.found ≡ self.old.identities.found }
        ensures wanted { self.new.identities.wanted ≡ self.old.identities.wanted }
    {
        let is_new = self.identities.is_new(device, &None);
        self.identities.hear(device, None);
        is_new
    }

    /// Where the map of a device is found, what it said last is kept.
    pub(crate) fn find_if(&mut self, is_found: bool, device: usize)
        ensures no_more { HasNoMore self.old self.new }
        ensures found { self.new.identities.found.items ≡ (if is_found then slice_set self.old.identities.found.items device (said_of self.old.identities device) else self.old.identities.found.items) }
        ensures wanted { self.new.identities.wanted ≡ self.old.identities.wanted }
        ensures sized { length self.old.identities.found.items ≡ length self.old.identities.last.items }
    {
        self.identities.find_if(is_found, device);
    }
}

fn no_writes(alloc: Global, outputs: usize) -> Result<Vec<Option<HeldWrite>>, AllocError>
    ensures { IfOk result (λ writes. (output : ℕ) → known_at writes.items output ≡ None) }
{
    let mut writes = Vec::new(alloc);
    for _ in 0..outputs {
        writes.push(None)?;
    }
    Ok(writes)
}

fn put(writes: &mut [Option<HeldWrite>], i: usize, write: Option<HeldWrite>)
    ensures put { writes.new ≡ slice_set writes.old i write }
    ensures len { length writes.new ≡ length writes.old }
{
    if i < writes.len() {
        writes[i] = write;
    }
}

/// What a device has that took a request now.
pub(crate) fn write_of(asked: Asked, now: u64) -> HeldWrite
    ensures { result ≡ write_of asked now }
{
    let Asked {
        device,
        address,
        words,
        number,
        ..
    } = asked;
    HeldWrite {
        device,
        address,
        words,
        number,
        at: now,
    }
}

/// What a block that was asked for shows of what a device took: only of what the same device took over the same connection.
fn shown_of(write: &HeldWrite, asked: &Asked, block: &[u16]) -> Option<Shown>
    ensures { result ≡ shown_of write.now asked.now block.now }
{
    if !is_over(write, asked) {
        return None;
    }
    let words = write.words.as_slice();
    let shows = shown_at(asked.address, block, write.address, words.len())?;
    compared(words, shows)
}

fn is_over(write: &HeldWrite, asked: &Asked) -> bool
    ensures { result ≡ is_over write.now asked.now }
{
    write.device == asked.device && write.number == asked.number
}

/// Whether a request to a device writes the same words into the same registers.
fn is_same(held: &HeldWrite, device: usize, request: &Request) -> bool
    ensures { result ≡ is_same held.now device request.now }
{
    match request {
        Request::Read { .. } => false,
        Request::WriteOne { addr, value } => is_written(held, device, *addr, &[*value]),
        Request::WriteMany { addr, words } => is_written(held, device, *addr, words.as_slice()),
    }
}

fn is_written(held: &HeldWrite, device: usize, address: u16, words: &[u16]) -> bool
    ensures { result ≡ is_written held.now device address words.now }
{
    held.device == device && held.address == address && held.words.as_slice() == words
}

/// Whether a device took it over the connection with this number, less than so many milliseconds ago.
fn is_recent(held: &HeldWrite, number: u64, within: u64, now: u64) -> bool
    ensures { result ≡ is_recent held.now number within now }
{
    held.number == number && now.saturating_sub(held.at) < within
}
