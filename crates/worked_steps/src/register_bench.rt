//! The registers of a device, and the search for its map.
use crate::bytes::{needed, number, registers_of};
use crate::fault::{Shown, StepFault};
use crate::page::Page;
use gateway::Outcome;
use modbus_frame::{Exception, Request, Words};
use register_map::{
    Map, MapFault, MemRegisters, PlannedFault, ReadFault, Registers, chain, discover,
};
use service_requests::{Search, SearchStep};
use std::alloc::Global;

/// A step of registers.
#[derive(Clone, Copy)]
pub(crate) enum RegisterStep<'a> {
    /// A device has these from an address on, and no other.
    Registers(u16, &'a [&'a str]),
    /// After so many reads one has this fault.
    Fault(u64, ReadFault),
    /// Its map is looked for at these bases.
    Discover(&'a [&'a str]),
    /// Its map is looked for by one read after another, at a base or at the usual ones.
    Search(Option<u16>),
    /// Whether both ways find the same at the usual bases.
    Both,
    /// Where its map has a model.
    Model(u16),
    /// Its registers as a list are read as a map.
    Chain,
}

impl<'a> RegisterStep<'a> {
    /// The step that words say; None where it is none of registers.
    pub(crate) fn read(name: &str, words: &'a [&'a str]) -> Option<RegisterStep<'a>> {
        match (name, words) {
            ("registers", [start, words @ ..]) => Some(Self::Registers(number(start)?, words)),
            ("refused-after", [reads]) => Some(Self::Fault(number(reads)?, ReadFault::Refused)),
            ("failed-after", [reads]) => Some(Self::Fault(number(reads)?, ReadFault::Failed)),
            ("discover", bases) => Some(Self::Discover(bases)),
            ("search", []) => Some(Self::Search(None)),
            ("search", [base]) => Some(Self::Search(Some(number(base)?))),
            ("search-both-ways", []) => Some(Self::Both),
            ("model", [id]) => Some(Self::Model(number(id)?)),
            ("chain", []) => Some(Self::Chain),
            _ => None,
        }
    }
}

/// A device's registers.
#[derive(Drop)]
pub(crate) struct RegisterBench {
    alloc: Global,
    start: u16,
    words: Vec<u16>,
    planned: Option<PlannedFault>,
}

impl RegisterBench {
    /// A device without any.
    pub(crate) fn new(alloc: Global) -> RegisterBench {
        RegisterBench {
            alloc,
            start: 0,
            words: Vec::new(alloc),
            planned: None,
        }
    }

    /// Takes a step, and tells what came of it.
    pub(crate) fn take(&mut self, page: &mut Page, step: RegisterStep<'_>) -> Shown<()> {
        match step {
            RegisterStep::Registers(start, words) => self.become_these(start, words),
            RegisterStep::Fault(reads_before, fault) => {
                self.planned = Some(PlannedFault {
                    reads_before,
                    fault,
                });
                Ok(())
            }
            RegisterStep::Discover(bases) => self.tell_discovered(page, bases),
            RegisterStep::Search(base) => self.tell_search(page, base),
            RegisterStep::Both => self.tell_both(page),
            RegisterStep::Model(id) => self.tell_model(page, id),
            RegisterStep::Chain => self.tell_map(page, &chain(&self.words)),
        }
    }

    fn become_these(&mut self, start: u16, words: &[&str]) -> Shown<()> {
        self.start = start;
        self.words = registers_of(self.alloc, words)?;
        self.planned = None;
        Ok(())
    }

    fn device(&self) -> Shown<MemRegisters> {
        Ok(MemRegisters::new(self.alloc, self.start, &self.words, self.planned)?)
    }

    /// The map at the usual bases.
    pub(crate) fn map(&self) -> Shown<Option<Map>> {
        Ok(discover(&mut self.device()?, &[40000, 50000, 0]).ok())
    }

    fn tell_discovered(&mut self, page: &mut Page, bases: &[&str]) -> Shown<()> {
        let mut device = self.device()?;
        let found = match bases {
            [] => discover(&mut device, &[]),
            [base] => discover(&mut device, &[base_of(*base)?.min(65534)]),
            [first, second] => discover(
                &mut device,
                &[base_of(*first)?.min(65534), base_of(*second)?.min(65534)],
            ),
            _ => discover(&mut device, &[40000, 50000, 0]),
        };
        self.tell_map(page, &found)?;
        match device.faults() {
            0 => Ok(()),
            failed => page.tell(format_args!("{failed} reads failed")),
        }
    }

    fn tell_map(&self, page: &mut Page, found: &Result<Map, MapFault>) -> Shown<()> {
        match found {
            Ok(map) => page.tell(map_text(self.alloc, map)?),
            Err(fault) => page.tell(*fault),
        }
    }

    fn tell_model(&mut self, page: &mut Page, id: u16) -> Shown<()> {
        let block = needed(self.map()?)?.block(id);
        page.tell(format_args!("{block:?}"))
    }

    fn tell_search(&mut self, page: &mut Page, base: Option<u16>) -> Shown<()> {
        let (map, reads) = searched(&mut self.device()?, base)?;
        match &map {
            Some(map) => page.tell(map_text(self.alloc, map)?)?,
            None => page.tell("no map")?,
        }
        page.tell(format_args!("{reads} reads"))
    }

    fn tell_both(&mut self, page: &mut Page) -> Shown<()> {
        let (map, _) = searched(&mut self.device()?, None)?;
        let whole = self.map()?;
        if ends_of(&map) != ends_of(&whole) {
            page.tell("not the same")?;
        }
        match &map {
            Some(map) => page.tell(map_text(self.alloc, map)?),
            None => page.tell("no map"),
        }
    }
}

fn base_of(word: &str) -> Shown<u16> {
    needed(word.parse::<u16>().ok())
}

/// The map that a search by single reads finds, and how many these were.
fn searched(device: &mut MemRegisters, base: Option<u16>) -> Shown<(Option<Map>, usize)> {
    let mut search = Search::new(base, false);
    for reads in 0..133 {
        match search.next() {
            SearchStep::Ask(Request::Read { addr, qty }) if !search.is_full() => {
                search.take(&outcome_of(device, addr, qty)?)
            }
            SearchStep::Found(map) => return Ok((Some(map), reads)),
            SearchStep::Ask(_) | SearchStep::Unnamed | SearchStep::NoMap => return Ok((
                None, reads,
            )),
        }
    }
    needed(None)
}

/// What a device answers to a request for registers.
fn outcome_of(device: &mut MemRegisters, addr: u16, qty: u16) -> Shown<Outcome> {
    let mut words = [0; 2];
    let (out, _) = words.split_at_mut(usize::from(qty).min(2));
    match device.read(addr, out) {
        Ok(()) => Ok(Outcome::Words(needed(Words::from_slice(out))?)),
        Err(ReadFault::Refused) => Ok(Outcome::Exception(Exception::ILLEGAL_DATA_ADDRESS)),
        Err(ReadFault::Failed) => Ok(Outcome::Mismatch),
    }
}

fn ends_of(map: &Option<Map>) -> Option<(usize, u16)> {
    match map {
        Some(map) => Some((map.blocks().len(), map.end())),
        None => None,
    }
}

/// The models of a map, each with the address of its registers and how many there are, and its end.
pub(crate) fn map_text(alloc: Global, map: &Map) -> Shown<String> {
    let mut text = String::new(alloc);
    for block in map.blocks() {
        write!(text, "{} at {}+{}, ", block.id, block.addr, block.length)?;
    }
    write!(text, "end at {}", map.end())?;
    Ok(text)
}
