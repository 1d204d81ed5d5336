//! The poller: the gateway's side of the link to the devices.
ghost use Rattle.std.specs.Prelude.{◌≡◌, [], None, Err, IfSome, IfOk, IfErr};
ghost use Rattle.modbus_frame.specs.Link.{CountsCalls};
ghost use Rattle.modbus_frame.specs.Message.{HasQuantity};
ghost use Rattle.gateway.specs.poller.Finding.{FindsAll, Searches, StopsSearch, StopsUnless};
ghost use Rattle.gateway.specs.poller.LinkRun.{Suits};
ghost use Rattle.gateway.specs.poller.Polling.{Asks};

mod cycle;
mod exchange;
mod finding;
mod line;
mod outcome;
mod polled;
mod telling;
mod write_order;

pub use cycle::{Call, Report, event_by, read_of, write_of};
pub use exchange::{MOST_DROPPED, is_reply, request_frame};
use line::Line;
use modbus_frame::{Link, LinkFault, MOST_CALLS, Request};
pub use outcome::Outcome;
pub use polled::run_scan;
use register_map::{Map, MapFault};
use site_model::Site;
use std::alloc::Global;
use std::marker::Model;
pub use write_order::WriteOrder;

/// Asks the units on a link, one request at a time. Transactions rise by one with each request, and begin again at 0.
///
/// After a [`LinkFault`] its work is over: each call answers that fault and touches nothing.
#[derive(Drop)]
pub struct Poller<L: Link> {
    pub(crate) line: Line<L>,
}

impl<L: Link> Model for Poller<L> {
    ghost use Rattle.gateway.specs.poller.Polling.{Polling};

    ghost Value = { Polling };

    ghost view = { λ p. (p.line).polling };
}

impl<L: Link> Poller<L> {
    /// A poller of the units on a link, whose first transaction is 0.
    pub fn new(link: L) -> Poller<L>
        ensures { result ≡ record {
          ahead = [];
          coming = L.coming link;
          sent = L.sent link;
          failures = L.failures link;
          calls = L.calls link;
          id = 0;
          fault = None;
        } }
    {
        Poller::beginning_at(link, 0)
    }

    /// A poller of the units on a link, whose first transaction is this.
    pub fn beginning_at(link: L, transaction: u16) -> Poller<L>
        ensures { result ≡ record {
          ahead = [];
          coming = L.coming link;
          sent = L.sent link;
          failures = L.failures link;
          calls = L.calls link;
          id = transaction;
          fault = None;
        } }
    {
        Poller {
            line: Line::beginning_at(link, transaction),
        }
    }

    /// The link. Bytes that were read ahead, after the last frame, don't come from it any more.
    pub fn link(&self) -> &L
        ensures sent { L.sent result.now ≡ self.now.sent }
        ensures failures { L.failures result.now ≡ self.now.failures }
        ensures calls { L.calls result.now ≡ self.now.calls }
        ensures coming { L.coming result.now ≡ self.now.coming }
    {
        self.line.link()
    }

    /// The link, where the poller's work is over: nothing was sent or read after its last request. Whoever owns a poller
    /// ends by this, so that what its link carried is known to the end. Bytes that were read ahead are gone.
    pub fn into_link(self) -> L
        ensures sent { L.sent result ≡ self.sent }
        ensures failures { L.failures result ≡ self.failures }
        ensures calls { L.calls result ≡ self.calls }
        ensures coming { L.coming result ≡ self.coming }
    {
        self.line.into_link()
    }

    /// Sends a request to a unit and gives its outcome: what the first frame with its transaction and unit says. Other
    /// frames are dropped; with the 17th the request is stale. Bytes after the frame that decides stay for the next
    /// call. A reading request asks for 1 to 125 registers, a writing one carries 1 to 123.
    ///
    /// [`LinkFault`]: Read and Write where the link failed, Frame where the bytes that came are no frame, End where they
    /// end inside one or before the reply, Turns after 1,000,000 reads and writes.
    pub fn ask(&mut self, unit: u8, request: &Request) -> Result<Outcome, LinkFault>
        requires { HasQuantity request.now }

        // The request went out, and these frames decided it; or a front of it, and the fault has its cause.
        ensures asks { self.old.fault ≡ None → Asks self.old unit request.now result self.new }
        ensures suits { IfOk result (Suits request.now) }
        ensures calls { self.old.fault ≡ None → CountsCalls self.old.calls self.new.calls result }

        // After a fault it answers that fault, and touches nothing.
        ensures stands { IfSome self.old.fault (λ fault. (result ≡ Err fault) × (self.new ≡ self.old)) }
    {
        self.line.turn_to(unit);
        self.line.allow(MOST_CALLS);
        self.line.ask(request)
    }

    /// The map of a unit, which is looked for at its base alone where one is given, else at 40000, 50000 and 0; or why it
    /// has none. Takes no memory.
    ///
    /// [`LinkFault`]: as for [`ask`](Poller::ask), over all requests.
    pub fn search(
        &mut self,
        unit: u8,
        base: Option<u16>,
    ) -> Result<Result<Map, MapFault>, LinkFault>
        // The requests are the reads of the search, and this is its result.
        ensures found { IfOk result (λ found. Searches unit base self.old found self.new) }
        ensures stopped { self.old.fault ≡ None
            → IfErr result (λ fault. StopsSearch unit base self.old fault self.new) }
        ensures calls { self.old.fault ≡ None → CountsCalls self.old.calls self.new.calls result }

        // After a fault it answers that fault, and touches nothing.
        ensures stands { IfSome self.old.fault (λ fault. (result ≡ Err fault) × (self.new ≡ self.old)) }
    {
        if let Some(fault) = self.line.fault() {
            return Err(fault);
        }
        self.line.allow(MOST_CALLS);
        self.line.search(unit, base)
    }

    /// The maps of a site's devices, in the order of its file; `None` for a device that has none. A device's map is
    /// looked for at its own base alone, where the file says one, else at 40000, 50000 and 0. A device that answers a
    /// read with something else than words or an exception has no map. Memory is taken before the first byte is sent.
    ///
    /// [`LinkFault`]: as for [`ask`](Poller::ask), over all requests; OutOfMemory where there is no memory for the maps.
    pub fn find(&mut self, alloc: Global, site: &Site) -> Result<Vec<Option<Map>>, LinkFault>
        // The requests are the reads of the searches, one device after another, and these are their results.
        ensures found { self.old.fault ≡ None
            → IfOk result (λ maps. FindsAll site.now.devices self.old maps.items self.new) }
        ensures stopped { self.old.fault ≡ None
            → IfErr result (λ fault. StopsUnless site.now.devices self.old fault self.new) }
        ensures calls { self.old.fault ≡ None → CountsCalls self.old.calls self.new.calls result }

        // After a fault it answers that fault, and touches nothing.
        ensures stands { IfSome self.old.fault (λ fault. (result ≡ Err fault) × (self.new ≡ self.old)) }
    {
        if let Some(fault) = self.line.fault() {
            return Err(fault);
        }
        let devices = site.devices();
        let mut maps = match Vec::with_capacity(alloc, devices.len()) {
            Ok(maps) => maps,
            Err(_) => return Err(LinkFault::OutOfMemory),
        };
        self.line.allow(MOST_CALLS);
        match self.line.find(devices, &mut maps) {
            Ok(()) => Ok(maps),
            Err(fault) => Err(fault),
        }
    }
}
