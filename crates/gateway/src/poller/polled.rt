//! One scan of a core over a link.
ghost use Rattle.std.specs.Prelude.{◌≡◌, None, Err, IfSome, IfOk, IfErr};
ghost use Rattle.modbus_frame.specs.Link.{CountsCalls};
ghost use Rattle.gateway.specs.event_core.Control.{IsPlanned, steps_of};
ghost use Rattle.gateway.specs.event_core.Core.{IsSame};
ghost use Rattle.gateway.specs.event_core.Driving.{TakesEvent};
ghost use Rattle.gateway.specs.poller.Cycle.{Scans, StopsScan};

use crate::event_core::{Answer, Core, Event};
use crate::poller::Poller;
use crate::poller::cycle::{Report, ScanCore, scan};
use crate::poller::write_order::WriteOrder;
use modbus_frame::{Link, LinkFault, MOST_CALLS};
use point_writer::{NoWrite, Write};
use register_map::Map;
use site_model::Site;

impl<const DEPTH: usize> ScanCore for Core<DEPTH> {
    ghost use Rattle.gateway.specs.event_core.Control.{IsPlanned, steps_of};
    ghost use Rattle.gateway.specs.event_core.Driving.{TakesEvent};

    ghost site_of = { λ core. core.site };

    ghost maps_of = { λ core. core.maps };

    ghost step_of = { TakesEvent DEPTH };

    ghost plan_of = { IsPlanned };

    ghost steps_of = { steps_of };

    fn site(&self) -> &Site {
        self.site()
    }

    fn maps(&self) -> &[Option<Map>] {
        self.maps()
    }

    fn step(&mut self, event: Event) -> Answer {
        self.step(event)
    }

    fn write(&self, i: usize) -> Result<Write, NoWrite> {
        self.write(i)
    }

    fn steps(&self) -> u32 {
        self.steps()
    }
}

/// One scan: each of the site's wanted blocks is asked for in one request, in order, the program runs once, and what it
/// stored for each `out` tag goes out, where it has words: by function 16, or by function 6 where the device wants that and
/// the point has one register (Modbus Application Protocol V1.1b3, sections 6.3, 6.6 and 6.12). First come the outputs that
/// go with no other, in order, and after each one whose write was acknowledged those that go with it; `order` has those that
/// had their turn. A block that isn't answered is lost; a write that isn't acknowledged is counted as refused. Takes no memory.
///
/// [`LinkFault`]: as for [`ask`](Poller::ask), over all requests of the scan; the events so far stand.
pub fn run_scan<const DEPTH: usize, L: Link>(
    core: &mut Core<DEPTH>,
    poller: &mut Poller<L>,
    order: &mut WriteOrder,
) -> Result<Report, LinkFault>
    // The requests are the reads of the wanted blocks, then the writes; the core took their events and the scan, by which
    // the machine ran once.
    ensures scanned { poller.old.fault ≡ None → IfOk result (λ report. Scans (TakesEvent DEPTH) IsPlanned steps_of core.old.site core.old.maps
        poller.old core.old poller.new core.new report) }
    ensures stopped { poller.old.fault ≡ None → IfErr result (λ fault. StopsScan (TakesEvent DEPTH) IsPlanned core.old.site core.old.maps
        poller.old core.old fault poller.new core.new) }
    ensures calls { poller.old.fault ≡ None → CountsCalls poller.old.calls poller.new.calls result }

    // The site, the maps and the program stay.
    ensures same { IsSame core.old core.new }

    // After a fault it answers that fault, and touches nothing.
    ensures stands { IfSome poller.old.fault (λ fault. (result ≡ Err fault) × (poller.new ≡ poller.old) × (core.new ≡ core.old)) }
{
    if let Some(fault) = poller.line.fault() {
        return Err(fault);
    }
    poller.line.allow(MOST_CALLS);
    scan(core, &mut poller.line, order)
}
