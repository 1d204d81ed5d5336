//! A link to the devices, and what is asked over it.
ghost use Rattle.std.specs.Prelude.{◌≡◌, [], None, IfOk};
ghost use Rattle.modbus_frame.specs.Message.{HasQuantity};
ghost use Rattle.gateway.specs.poller.Asking.{AsksUnless};
ghost use Rattle.gateway.specs.poller.LinkRun.{next_id, Suits};

use crate::poller::exchange::exchange;
use crate::poller::outcome::Outcome;
use modbus_frame::{FrameReader, Link, LinkFault, Request};
use std::marker::Model;

/// A link, and what is asked over it: one unit after another, by at most so many reads and writes.
#[derive(Drop)]
pub(crate) struct Line<L: Link> {
    link: L,
    reader: FrameReader,
    id: u16,
    fault: Option<LinkFault>,
    unit: u8,
    turns: u32,
}

impl<L: Link> Model for Line<L> {
    ghost use Rattle.std.specs.Prelude.{◌≡◌, ◌++◌, None};
    ghost use Rattle.gateway.specs.poller.Asking.{Asking};

    ghost Value = { Asking };

    ghost view = { λ l. record {
      polling = record {
        ahead = l.reader.held.kept ++ l.reader.unfed;
        coming = L.coming l.link;
        sent = L.sent l.link;
        failures = L.failures l.link;
        calls = L.calls l.link;
        id = l.id;
        fault = l.fault;
      };
      unit = l.unit;
      turns = l.turns;
    } };

    ghost invariant = { λ l. l.fault ≡ None → l.reader.held.fault ≡ None };
}

impl<L: Link> Line<L> {
    /// A line on which nothing was asked yet: this is the first transaction, and nothing is kept.
    pub(crate) fn beginning_at(link: L, id: u16) -> Line<L>
        ensures { result ≡ record {
          polling = record {
            ahead = [];
            coming = L.coming link;
            sent = L.sent link;
            failures = L.failures link;
            calls = L.calls link;
            id = id;
            fault = None;
          };
          unit = 0;
          turns = 0;
        } }
    {
        Line {
            link,
            reader: FrameReader::new(),
            id,
            fault: None,
            unit: 0,
            turns: 0,
        }
    }

    /// The link, of which some bytes may be read ahead.
    pub(crate) fn link(&self) -> &L
        ensures sent { L.sent result.now ≡ self.now.polling.sent }
        ensures failures { L.failures result.now ≡ self.now.polling.failures }
        ensures calls { L.calls result.now ≡ self.now.polling.calls }
        ensures coming { L.coming result.now ≡ self.now.polling.coming }
    {
        &self.link
    }

    /// The link. Bytes that were read ahead are gone.
    pub(crate) fn into_link(self) -> L
        ensures sent { L.sent result ≡ self.polling.sent }
        ensures failures { L.failures result ≡ self.polling.failures }
        ensures calls { L.calls result ≡ self.polling.calls }
        ensures coming { L.coming result ≡ self.polling.coming }
    {
        self.link
    }

    /// The fault that ended its work.
    pub(crate) fn fault(&self) -> Option<LinkFault>
        ensures { result ≡ self.now.polling.fault }
    {
        self.fault
    }

    /// From now on requests go to this unit.
    pub(crate) fn turn_to(&mut self, unit: u8)
        ensures { self.new ≡ record self.old { unit = unit } }
    {
        self.unit = unit;
    }

    /// From now on at most so many reads and writes are made.
    pub(crate) fn allow(&mut self, turns: u32)
        ensures { self.new ≡ record self.old { turns = turns } }
    {
        self.turns = turns;
    }

    /// Sends a request and gives its outcome. A fault is kept, and answers each request after it.
    pub(crate) fn ask(&mut self, request: &Request) -> Result<Outcome, LinkFault>
        requires { HasQuantity request.now }
        ensures asks { AsksUnless self.old.polling.fault self.old request.now result self.new }
        ensures suits { IfOk result (Suits request.now) }
    {
        if let Some(fault) = self.fault {
            return Err(fault);
        }
        let id = self.id;
        self.id = next_id(id);
        match exchange(
            &mut self.link,
            &mut self.reader,
            id,
            self.unit,
            request,
            &mut self.turns,
        ) {
            Ok(outcome) => Ok(outcome),
            Err(fault) => {
                self.fault = Some(fault);
                Err(fault)
            }
        }
    }
}

fn next_id(id: u16) -> u16
    ensures { result ≡ next_id id }
{
    id.wrapping_add(1)
}
