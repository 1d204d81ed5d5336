//! The search for the maps of devices over a line.
ghost use Rattle.std.specs.Prelude.{◌≡◌, ◌≤◌, ℕ, List, Option, [], length, vec_len, vec_capacity, None, Some, OnOk, IfOk, IfErr};
ghost use Rattle.register_map.specs.Reads.{RegisterRead, answer_of};
ghost use Rattle.register_map.specs.Search.{IsDiscovery};
ghost use Rattle.gateway.specs.poller.Asking.{Turned};
ghost use Rattle.gateway.specs.poller.Finding.{ReadsLine, bases_by, FindsOne, FindsAll, Searches, StopsFinding, StopsSearch};

use crate::poller::line::Line;
use crate::poller::outcome::Outcome;
use modbus_frame::{Link, LinkFault, Request, Words};
use register_map::{Map, MapFault, ReadFault, Registers, discover};
use site_model::SiteDevice;

/// Where the mark of a device stands whose base isn't known, in the order of the search.
const BASES: [u16; 3] = [40000, 50000, 0];

impl<L: Link> Registers for Line<L> {
    ghost use Rattle.std.specs.Prelude.{None};
    ghost use Rattle.gateway.specs.poller.Finding.{ReadsLine};

    ghost reads = { ReadsLine };

    ghost faults = { λ _. None };

    fn read(&mut self, addr: u16, out: &mut [u16]) -> Result<(), ReadFault> {
        let qty = out.len();
        if qty == 0 || qty > Words::MAX_LEN {
            return Err(ReadFault::Failed);
        }
        let request = Request::Read {
            addr,
            qty: qty as u16,
        };
        match self.ask(&request) {
            Ok(Outcome::Words(words)) => {
                out.copy_from_slice(words.as_slice());
                Ok(())
            }
            Ok(Outcome::Exception(_)) => Err(ReadFault::Refused),
            Ok(_) | Err(_) => Err(ReadFault::Failed),
        }
    }
}

impl<L: Link> Line<L> {
    /// The maps of the devices, in order; `None` for one that has none. There is room for them.
    pub(crate) fn find(
        &mut self,
        devices: &[SiteDevice],
        maps: &mut Vec<Option<Map>>,
    ) -> Result<(), LinkFault>
        requires works { self.old.polling.fault ≡ None }
        requires none { maps.old.items ≡ [] }
        requires room { length devices.now ≤ vec_capacity maps.old }
        ensures found { OnOk result (FindsAll devices.now self.old.polling maps.new.items self.new.polling) }
        ensures stopped { IfErr result (λ fault. StopsFinding devices.now self.old.polling fault self.new.polling) }
        ensures turned { Turned self.old self.new }
    {
        for device in devices {
            match self.map_of(device) {
                Ok(map) => maps.push_reserved(map),
                Err(fault) => return Err(fault),
            }
        }
        Ok(())
    }

    fn map_of(&mut self, device: &SiteDevice) -> Result<Option<Map>, LinkFault>
        requires { self.old.polling.fault ≡ None }
        ensures found { IfOk result (λ map. FindsOne device.now self.old.polling map self.new.polling) }
        ensures stopped { IfErr result (λ fault. StopsSearch device.now.unit device.now.base self.old.polling fault self.new.polling) }
        ensures turned { Turned self.old self.new }
    {
        match self.search(device.unit, device.base) {
            Ok(found) => Ok(found.ok()),
            Err(fault) => Err(fault),
        }
    }

    /// The map of a unit, or why it has none.
    pub(crate) fn search(
        &mut self,
        unit: u8,
        base: Option<u16>,
    ) -> Result<Result<Map, MapFault>, LinkFault>
        requires { self.old.polling.fault ≡ None }
        ensures found { IfOk result (λ found. Searches unit base self.old.polling found self.new.polling) }
        ensures stopped { IfErr result (λ fault. StopsSearch unit base self.old.polling fault self.new.polling) }
        ensures turned { Turned self.old self.new }
    {
        self.turn_to(unit);
        let found = self.discover(base);
        match self.fault() {
            Some(fault) => Err(fault),
            None => Ok(found),
        }
    }

    fn discover(&mut self, base: Option<u16>) -> Result<Map, MapFault>
        ensures { (log : List RegisterRead) × IsDiscovery ReadsLine self.old (bases_by base) self.new log result }
    {
        match base {
            None => discover(self, &BASES),
            Some(u16::MAX) => Err(MapFault::NoMark),
            Some(base) => discover(self, &[base]),
        }
    }
}
