//! A place for a client.
ghost use Rattle.std.specs.Prelude.{◌≡◌, ◌≤◌, ◌<◌, ◌↔◌, ◌&&◌, not, [], length, take, IsTrue, true, false};
ghost use Rattle.service_requests.specs.Sessions.{IsFree, ServesOn};

use crate::times::heard_at;
use modbus_frame::Responder;
use service_requests::{Session, Turned};

/// Room for the answers of one turn.
const ROOM: usize = 2080;

/// A client that was silent for more than this may lose its place to another one.
const GIVES_WAY: u64 = 30_000;

/// A place for a client, with the bytes that wait to go out to it.
#[derive(Drop)]
pub struct ClientPlace {
    session: Session,
    may_write: bool,
    out: [u8; 2080],
    start: usize,
    end: usize,
    is_taken: bool,
    is_closing: bool,
    /// When it came, or its last whole frame.
    last: u64,
    /// How many of its frames were answered.
    requests: u64,
    ghost begins: { start ≤ end },
    ghost room: { end ≤ 2080 },
    ghost quiet: { start ≡ end → session.waiting ≡ [] },
}

impl ClientPlace {
    ghost use Rattle.service_parts.specs.Clients.{HasAnswered, Hears, IsDeaf, IsDone, IsOpen, IsSame, Sends, heard_at, more_by, ready_of};
    ghost use Rattle.service_parts.specs.Places.{closed_if_idle, is_free, is_silent};

    pub fn new() -> ClientPlace {
        ClientPlace {
            session: Session::new(),
            may_write: false,
            out: [0; ROOM],
            start: 0,
            end: 0,
            is_taken: false,
            is_closing: false,
            last: 0,
            requests: 0,
        }
    }

    /// Whether nobody is there.
    pub fn is_free(&self) -> bool
        ensures { result ≡ is_free self.now }
    {
        !self.is_taken
    }

    /// Whether nothing was heard of its client for over half a minute.
    pub fn is_silent(&self, now: u64) -> bool
        ensures { result ≡ is_silent now self.now }
    {
        self.last.saturating_add(GIVES_WAY) < now
    }

    /// How many of its frames were answered.
    pub fn requests(&self) -> u64
        ensures { result ≡ self.now.requests }
    {
        self.requests
    }

    /// When its client came, or sent its last whole frame.
    pub fn last(&self) -> u64
        ensures { result ≡ self.now.last }
    {
        self.last
    }

    /// Whether its client waits to be closed once it was silent for long.
    pub fn is_waited_for(&self) -> bool
        ensures { result ≡ (self.now.is_taken && not self.now.is_closing) }
    {
        self.is_taken && !self.is_closing
    }

    /// A client comes.
    pub fn open(&mut self, may_write: bool, now: u64)
        ensures { IsOpen may_write now self.new }
    {
        self.session = Session::new();
        self.may_write = may_write;
        self.start = 0;
        self.end = 0;
        self.is_taken = true;
        self.is_closing = false;
        self.last = now;
        self.requests = 0;
    }

    /// Its client is gone.
    pub fn leave(&mut self)
        ensures { self.new.is_taken ≡ false }
    {
        self.open(false, 0);
        self.is_taken = false;
    }

    /// Its client is to be closed, where nothing was heard of it for so long.
    pub fn close_if_idle(&mut self, now: u64, idle: u64)
        ensures { self.new ≡ closed_if_idle now idle self.old }
    {
        let is_idle = self.is_taken && self.last.saturating_add(idle) <= now;
        self.is_closing = self.is_closing || is_idle;
    }

    /// Whether its connection is to be closed: its client was silent, or its stream is over and all answers are written.
    pub fn wants_close(&self) -> bool
        ensures { IsTrue result ↔ IsDone self.now }
    {
        self.is_taken && (self.is_closing || (self.start == self.end && self.session.is_over()))
    }

    /// The bytes that are to go out.
    pub fn out(&self) -> &[u8]
        ensures { result.now ≡ ready_of self.now }
    {
        &self.out[self.start..self.end]
    }

    /// So many bytes are gone; what still waits takes their place once all are.
    pub fn sent(&mut self, n: usize)
        ensures { Sends self.old n self.new }
    {
        self.start += n.min(self.end - self.start);
        if self.start == self.end {
            let end = self.session.put(&mut self.out);
            self.start = 0;
            self.end = end;
        }
    }

    /// Whether nothing more is heard of its client: nobody is there, it is to be closed, or its stream is over.
    fn is_deaf(&self) -> bool
        ensures { IsTrue result ↔ IsDeaf self.now }
    {
        !self.is_taken || self.is_closing || self.session.is_over()
    }

    /// Whether its client may write.
    pub fn may_write(&self) -> bool
        ensures { result ≡ self.now.may_write }
    {
        self.may_write
    }

    /// Takes bytes of the client, and answers frames in them, at most 8; how many bytes it used: none while answers are to
    /// go out, and all that come once nothing more is heard of it.
    pub fn take<R: Responder>(&mut self, responder: &mut R, bytes: &[u8], now: u64) -> usize
        ensures used { result ≤ length bytes.now }
        ensures hears { (IsDeaf self.old → ⊥) → Hears R.answers now responder.old self.old (take result bytes.now) responder.new self.new }
        ensures takes { (IsDeaf self.old → ⊥) → ready_of self.old ≡ [] → 0 < length bytes.now → 0 < result }
        ensures chain { HasAnswered R.answers responder.old responder.new }
        ensures deaf { IsDeaf self.old → (self.new ≡ self.old) × (responder.new ≡ responder.old) }
    {
        if self.is_deaf() {
            return bytes.len();
        }
        if self.start < self.end {
            return 0;
        }
        self.serve(responder, bytes, now).used
    }

    // One turn of the client.
    #[tactic(auto, using(crate::proofs::Heard::counted))]
    fn serve<R: Responder>(&mut self, responder: &mut R, bytes: &[u8], now: u64) -> Turned
        ensures serves { ServesOn R.answers result.frames responder.old
            self.old.session (take result.used bytes.now) (take self.new.end self.new.out) responder.new self.new.session }
        ensures few { result.frames ≤ 8 }
        ensures used { result.used ≤ length bytes.now }
        ensures takes { IsFree self.old.session → 0 < length bytes.now → 0 < result.used }
        ensures front { self.new.start ≡ 0 }
        ensures same { IsSame self.old self.new }
        ensures since { self.new.last ≡ heard_at now result.frames self.old.last }
        ensures count { self.new.requests ≡ more_by result.frames self.old.requests }
    {
        let turned = self.session.turn(responder, bytes, &mut self.out);
        self.start = 0;
        self.end = turned.put;
        self.requests = self.requests.saturating_add(turned.frames as u64);
        self.last = heard_at(turned.frames, now, self.last);
        turned
    }
}
