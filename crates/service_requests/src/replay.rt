//! Registers that answer by what was told.
ghost use Rattle.std.specs.Prelude.{◌≡◌, List, None};
ghost use Rattle.register_map.specs.Reads.{RegisterRead};
ghost use Rattle.register_map.specs.Search.{IsDiscovery};
ghost use Rattle.gateway.specs.poller.Finding.{bases_by};
ghost use Rattle.service_requests.specs.Searches.{Replays};

use crate::read_answer::ReadAnswer;
use register_map::{Map, MapFault, ReadFault, Registers, discover};
use std::marker::Model;

/// Where the mark of a device stands whose base isn't known, in the order of the search.
const BASES: [u16; 3] = [40000, 50000, 0];

/// Answers that are given in order, and the read that had none.
#[derive(Drop)]
pub(crate) struct Replay<'a> {
    told: &'a [ReadAnswer],
    wanted: Option<(u16, usize)>,
}

impl<'a> Model for Replay<'a> {
    ghost use Rattle.std.specs.Prelude.{map};
    ghost use Rattle.service_requests.specs.Searches.{Replaying, answer_told};

    ghost Value = { Replaying };

    ghost view = { λ r. record { left = map answer_told r.told.now; wanted = r.wanted } };
}

impl<'a> Registers for Replay<'a> {
    ghost use Rattle.std.specs.Prelude.{None};
    ghost use Rattle.service_requests.specs.Searches.{Replays};

    ghost reads = { Replays };

    ghost faults = { λ _. None };

    fn read(&mut self, addr: u16, out: &mut [u16]) -> Result<(), ReadFault> {
        match self.told {
            [first, rest @ ..] => {
                self.told = rest;
                first.fill(out)
            }
            [] => {
                self.wanted = Some((addr, out.len()));
                Err(ReadFault::Failed)
            }
        }
    }
}

impl<'a> Replay<'a> {
    ghost use Rattle.std.specs.Prelude.{map};
    ghost use Rattle.service_requests.specs.Searches.{answer_told};

    /// All are to be given.
    pub(crate) fn of(told: &'a [ReadAnswer]) -> Replay<'a>
        ensures { result ≡ record { left = map answer_told told.now; wanted = None } }
    {
        Replay { told, wanted: None }
    }

    /// The read that had no answer.
    pub(crate) fn wanted(&self) -> Option<(u16, usize)>
        ensures { result ≡ self.now.wanted }
    {
        self.wanted
    }

    /// Looks for a device's map.
    pub(crate) fn search(&mut self, base: Option<u16>) -> Result<Map, MapFault>
        ensures { (log : List RegisterRead) × IsDiscovery Replays self.old (bases_by base) self.new log result }
    {
        match base {
            None => discover(self, &BASES),
            Some(u16::MAX) => Err(MapFault::NoMark),
            Some(base) => discover(self, &[base]),
        }
    }
}
