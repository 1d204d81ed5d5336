//! A link that remembers what was asked over it last, and what came.
ghost use Rattle.std.specs.Prelude.{◌≡◌};

use modbus_frame::{Down, Link};
use std::alloc::Global;

/// How many bytes of a request, and of what came after it, are remembered.
const KEPT: usize = 12;

/// The function that reads registers (Modbus Application Protocol V1.1b3, 6.3).
const READ: u8 = 3;

/// The functions that write one register and several (6.6, 6.12).
const WRITES: [u8; 2] = [6, 16];

/// The bit of a reply's function that says that the request was refused (7).
const REFUSED: u16 = 0x8000;

/// A link that remembers the last request that went out, what came after it, the models whose ID was read, and which writes
/// were refused. What is read and written is what the link inside reads and writes.
#[derive(Drop)]
pub struct WatchedLink<L: Link> {
    link: L,
    request: Front,
    reply: Front,
    models: Vec<ModelAt>,
    /// How many requests to write were answered.
    writes: usize,
    /// Those of them that were refused, in order.
    refused: Vec<RefusedWrite>,
}

/// A write that was refused.
#[derive(Clone, Copy)]
pub(crate) struct RefusedWrite {
    /// Which it is of all writes that were answered, counted from 0.
    pub place: usize,
    pub exception: u8,
}

/// The front of some bytes, and how many there were.
#[derive(Clone, Copy)]
pub(crate) struct Front {
    bytes: [u8; 12],
    count: usize,
}

/// A model of a unit, at the register of its ID.
#[derive(Clone, Copy)]
pub(crate) struct ModelAt {
    pub unit: u8,
    pub addr: u16,
    pub id: u16,
}

/// A request to a unit, as its frame has it: the function, an address, and for reads and writes of several registers
/// how many.
#[derive(Clone, Copy)]
pub(crate) struct WatchedRequest {
    pub unit: u8,
    pub function: u8,
    pub addr: u16,
    pub qty: u16,
}

impl Front {
    const fn new() -> Front {
        Front {
            bytes: [0; 12],
            count: 0,
        }
    }

    /// Some more bytes.
    fn push(&mut self, bytes: &[u8]) {
        for byte in bytes {
            if let Some(place) = self.bytes.get_mut(self.count) {
                *place = *byte;
            }
            self.count = self.count.saturating_add(1);
        }
    }

    /// How many bytes there were.
    pub fn count(&self) -> usize {
        self.count
    }

    /// Those that are kept.
    pub fn kept(&self) -> &[u8] {
        match self.bytes.split_at_checked(self.count) {
            Some((kept, _)) => kept,
            None => &self.bytes,
        }
    }

    /// The number in two bytes; none where they aren't kept.
    fn number_at(&self, place: usize) -> Option<u16> {
        match self.kept().split_at_checked(place) {
            Some((_, [high, low, ..])) => Some(u16::from_be_bytes([*high, *low])),
            _ => None,
        }
    }
}

impl<L: Link> WatchedLink<L> {
    /// The link, over which nothing was asked yet.
    pub fn new(alloc: Global, link: L) -> WatchedLink<L>
        ensures { result.link ≡ link }
    {
        WatchedLink {
            link,
            request: Front::new(),
            reply: Front::new(),
            models: Vec::new(alloc),
            writes: 0,
            refused: Vec::new(alloc),
        }
    }

    /// The link that was watched, as the last call over it left it.
    pub fn into_link(self) -> L
        ensures { result ≡ self.link }
    {
        self.link
    }

    /// The last request that went out whole.
    pub(crate) fn asked(&self) -> Option<WatchedRequest> {
        let unit = self.request.number_at(6)?;
        let [unit, function] = unit.to_be_bytes();
        Some(WatchedRequest {
            unit,
            function,
            addr: self.request.number_at(8)?,
            qty: self.request.number_at(10)?,
        })
    }

    /// What came after it.
    pub(crate) fn came(&self) -> Front {
        self.reply
    }

    /// The ID of the model in which a register of a unit lies, where it was read.
    pub(crate) fn model_of(&self, unit: u8, addr: u16) -> Option<u16> {
        let mut found = None;
        for model in self.models.as_slice() {
            if model.unit == unit && model.addr <= addr {
                found = Some(model.id);
            }
        }
        found
    }

    /// The writes that were refused, in order; the last request isn't among them.
    pub(crate) fn refused(&self) -> &[RefusedWrite] {
        self.refused.as_slice()
    }

    /// The last request, where it is a write that was refused.
    pub(crate) fn refused_last(&self) -> Option<RefusedWrite> {
        if !self.is_write() {
            return None;
        }
        Some(RefusedWrite {
            place: self.writes,
            exception: self.exception()?,
        })
    }

    /// Whether the last request is to write registers.
    fn is_write(&self) -> bool {
        match self.asked() {
            Some(asked) => WRITES.contains(&asked.function),
            None => false,
        }
    }

    /// By which exception the reply to the last request says that it is refused; none where it doesn't say so.
    fn exception(&self) -> Option<u8> {
        match self.reply.number_at(7) {
            Some(word) if word & REFUSED != 0 => {
                let [_, exception] = word.to_be_bytes();
                Some(exception)
            }
            _ => None,
        }
    }

    /// Where something came after the last request, notes what it brought, and forgets both.
    fn turn(&mut self)
        ensures { self.new.link ≡ self.old.link }
    {
        if self.reply.count > 0 {
            self.learn();
            self.count_write();
            self.request = Front::new();
            self.reply = Front::new();
        }
    }

    /// Counts the last request, where it is to write, and notes whether it was refused.
    fn count_write(&mut self)
        ensures { self.new.link ≡ self.old.link }
    {
        if !self.is_write() {
            return;
        }
        let place = self.writes;
        if let Some(exception) = self.exception() {
            let _ = self.refused.push(RefusedWrite { place, exception });
        }
        self.writes = place.saturating_add(1);
    }

    /// Notes the ID that the last reply brought. A length, which follows an ID in the next register, isn't one.
    fn learn(&mut self)
        ensures { self.new.link ≡ self.old.link }
    {
        let Some(
            WatchedRequest {
                unit,
                function: READ,
                addr,
                qty: 1,
            },
        ) = self.asked()
        else {
            return;
        };
        let (Some(0x0302), Some(id)) = (self.reply.number_at(7), self.reply.number_at(9)) else {
            return;
        };
        if !self.is_length(unit, addr) {
            let _ = self.models.push(ModelAt { unit, addr, id });
        }
    }

    /// Whether a register is that after the last ID.
    fn is_length(&self, unit: u8, addr: u16) -> bool {
        match self.models.last() {
            Some(model) => model.unit == unit && model.addr.checked_add(1) == Some(addr),
            None => false,
        }
    }
}

impl<L: Link> Link for WatchedLink<L> {
    ghost calls = { λ l. L.calls l.link };

    ghost failures = { λ l. L.failures l.link };

    ghost coming = { λ l. L.coming l.link };

    ghost sent = { λ l. L.sent l.link };

    fn read(&mut self, into: &mut [u8]) -> Result<usize, Down> {
        let count = self.link.read(into)?;
        self.reply.push(into.split_at(count).0);
        Ok(count)
    }

    fn write(&mut self, from: &[u8]) -> Result<usize, Down> {
        self.turn();
        let count = self.link.write(from)?;
        self.request.push(from.split_at(count).0);
        Ok(count)
    }
}
