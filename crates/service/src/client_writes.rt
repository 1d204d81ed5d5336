//! What clients write.
ghost use Rattle.std.specs.Prelude.{◌≡◌};
ghost use Rattle.service.specs.ClientWrites.{address_in, outcome_by, request_in, with_write, write_of};

use arrayvec::ArrayVec;
use modbus_frame::{Exception, Pdu, Request, parse_request};
use std::marker::Model;

/// What clients wrote in one call: a call answers 8 frames at most.
///
/// A contract sees it as a list.
#[derive(Drop)]
pub(crate) struct ClientWrites {
    items: ArrayVec<ClientWrite, 8>,
}

/// What a client's frame asked to be written, and what became of it.
#[derive(Default, Drop)]
pub struct ClientWrite {
    /// The code of its function.
    pub function: u8,
    /// The first register that it was for, where the frame says one.
    pub address: Option<u16>,
    /// What it asked for, where it is a request.
    pub request: Option<Request>,
    pub outcome: WriteOutcome,
}

/// What became of a client's write.
#[derive(Clone, Copy, Default)]
pub enum WriteOutcome {
    #[default]
    Done,
    Refused(Exception),
}

impl Model for ClientWrites {
    ghost use Rattle.std.specs.Prelude.{List, ◌≤◌, length};
    ghost use Rattle.service.specs.declared.client_writes.ClientWrite.{ClientWrite as Written};

    ghost Value = { List Written };

    ghost view = { λ w. w.items.items };

    ghost invariant = { λ w. length w.items.items ≤ 8 };
}

impl ClientWrites {
    ghost use Rattle.std.specs.Prelude.{[]};

    /// Nothing was written.
    pub(crate) fn new() -> ClientWrites
        ensures { result ≡ [] }
    {
        ClientWrites {
            items: ArrayVec::new(),
        }
    }

    /// From now on nothing was written.
    pub(crate) fn clear(&mut self)
        ensures { self.new ≡ [] }
    {
        self.items.clear();
    }

    /// This was asked for, and that became of it.
    pub(crate) fn add(&mut self, asked: &Pdu, outcome: WriteOutcome)
        ensures { self.new ≡ with_write (write_of asked.now outcome) self.old }
    {
        let write = write_of(asked, outcome);
        if !self.items.is_full() {
            self.items.push(write);
        }
    }

    /// The writes, in order.
    pub(crate) fn as_slice(&self) -> &[ClientWrite]
        ensures { result.now ≡ self.now }
    {
        self.items.as_slice()
    }
}

/// A write, by the message that asked for it.
fn write_of(asked: &Pdu, outcome: WriteOutcome) -> ClientWrite
    ensures { result ≡ write_of asked.now outcome }
{
    ClientWrite {
        function: asked.bytes()[0],
        address: address_in(asked.bytes()),
        request: request_in(asked),
        outcome,
    }
}

/// The first register that a message is for.
fn address_in(asked: &[u8]) -> Option<u16>
    ensures { result ≡ address_in asked.now }
{
    match asked {
        [_, high, low, ..] => Some(u16::from_be_bytes([*high, *low])),
        _ => None,
    }
}

/// The request that a message is, where it is one.
fn request_in(asked: &Pdu) -> Option<Request>
    ensures { result ≡ request_in asked.now }
{
    match parse_request(asked) {
        Ok(request) => Some(request),
        Err(_) => None,
    }
}

/// What became of a write, by the message that answers it.
pub(crate) fn outcome_by(reply: &Pdu) -> WriteOutcome
    ensures { result ≡ outcome_by reply.now }
{
    outcome_in(reply.bytes())
}

fn outcome_in(reply: &[u8]) -> WriteOutcome
    ensures { result ≡ outcome_by reply.now }
{
    match reply {
        [function, code, ..] if *function >= 128 => WriteOutcome::Refused(Exception(*code)),
        _ => WriteOutcome::Done,
    }
}
