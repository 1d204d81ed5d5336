//! A line to devices: a connection, and what goes out over it.
ghost use Rattle.std.specs.Prelude.{◌≡◌, ◌≤◌, ◌↔◌, ◌&&◌, not, is_none, IsTrue, None, drop, length, true, false};
ghost use Rattle.modbus_frame.specs.Message.{HasQuantity};
ghost use Rattle.service_parts.specs.Frames.{Begins, ComesUp, GivesUp, GoesDown, Hears, IsCut, IsUnwaited, Keeps, Sends, dialled, ended_by, is_idle, left_under_way};
ghost use Rattle.service_parts.specs.Overdue.{is_over};
ghost use Rattle.service_parts.specs.Waking.{IsToDial, IsToHangUp, due_at, is_quiet};

use crate::answering::is_answered;
use crate::asked::Asked;
use crate::limits::Limits;
use crate::times::longer;
use arrayvec::ArrayVec;
use modbus_frame::Request;
use service_requests::{BytesTaken, PendingRequest, RequestEnd};

/// A line to devices: its connection, up or down, with the request that is under way on it and what is still to be written.
#[derive(Drop)]
pub struct DeviceConnection {
    pending: PendingRequest,
    asked: Option<Asked>,
    /// What is still to be written of a request.
    out: ArrayVec<u8, 260>,
    /// The number of the next transaction.
    id: u16,
    is_up: bool,
    is_bad: bool,
    /// The numbers of its devices.
    devices: Vec<usize>,
    /// Before this time there is nothing to ask over it, unless something happens.
    rest_until: u64,
    /// So many requests in a row had no answer.
    silent: usize,
    /// Whether a device answered since it came up.
    is_heard: bool,
    dial_at: u64,
    /// Until when the dial that is under way may take.
    dial_until: Option<u64>,
    /// Its last back-off; 0 where a device answered since.
    wait: u64,
}

/// What was taken of a line's stream.
#[derive(Drop)]
pub struct Intake {
    /// So many bytes were used; the others are to be given again, before those that come.
    pub used: usize,
    /// The request that was under way, where it is over now.
    pub asked: Option<Asked>,
    /// What became of it.
    pub fate: Option<RequestEnd>,
}

impl DeviceConnection {
    /// One to these devices that is down, and on which nothing waits.
    pub fn new(devices: Vec<usize>) -> DeviceConnection
        ensures cut { IsCut result }
        ensures back_off { IsUnwaited result }
    {
        DeviceConnection {
            pending: PendingRequest::new(),
            asked: None,
            out: ArrayVec::new(),
            id: 0,
            is_up: false,
            is_bad: false,
            devices,
            rest_until: 0,
            silent: 0,
            is_heard: false,
            dial_at: 0,
            dial_until: None,
            wait: 0,
        }
    }

    pub fn is_up(&self) -> bool
        ensures { result ≡ self.now.is_up }
    {
        self.is_up
    }

    /// Whether it is up, and nothing is wrong with it.
    pub fn is_well(&self) -> bool
        ensures { result ≡ (self.now.is_up && not self.now.is_bad) }
    {
        self.is_up && !self.is_bad
    }

    /// Whether it is to be hung up.
    pub fn is_bad(&self) -> bool
        ensures { result ≡ (self.now.is_up && self.now.is_bad) }
    {
        self.is_up && self.is_bad
    }

    /// Whether the time of the request that is under way is over.
    pub fn is_overdue(&self, now: u64) -> bool
        ensures { result ≡ is_over now self.now.asked }
    {
        match &self.asked {
            Some(asked) => asked.until <= now,
            None => false,
        }
    }

    /// The numbers of its devices.
    pub fn devices(&self) -> &[usize] {
        &self.devices
    }

    /// What is to be written.
    pub fn out(&self) -> &[u8]
        ensures { result.now ≡ self.now.out.items }
    {
        &self.out
    }

    /// Whether nothing waits to be written.
    pub fn is_sent(&self) -> bool
        ensures { result ≡ is_quiet self.now }
    {
        self.out.is_empty()
    }

    /// Whether a request may begin: it is well, no request is under way, and nothing waits.
    pub fn is_free(&self) -> bool
        ensures { result ≡ (self.now.is_up && not self.now.is_bad && is_none self.now.asked && is_quiet self.now) }
    {
        self.is_up && !self.is_bad && self.asked.is_none() && self.out.is_empty()
    }

    /// Whether it is well and does nothing: its devices answered, and no request is under way.
    pub fn is_idle(&self) -> bool
        ensures { result ≡ is_idle self.now }
    {
        self.is_well() && self.asked.is_none() && self.is_heard
    }

    /// Whether something may be to be asked at this time.
    pub fn is_stirred(&self, now: u64) -> bool {
        now >= self.rest_until
    }

    /// Whether it is to be made: it is down, no dial is under way, and its back-off is over.
    pub fn wants_dial(&self, now: u64) -> bool
        ensures { IsTrue result ↔ IsToDial now self.now }
    {
        !self.is_up && self.dial_until.is_none() && now >= self.dial_at
    }

    /// Whether it is to be closed, or the dial that is under way to be given up.
    pub fn wants_hang_up(&self, now: u64) -> bool
        ensures { IsTrue result ↔ IsToHangUp now self.now }
    {
        match self.dial_until {
            Some(until) => now >= until,
            None => self.is_bad(),
        }
    }

    /// When something is to be done about it: a wait or a dial ends, a dial is due, or, once all is written, a device may
    /// be asked again.
    pub fn wakes_at(&self) -> u64
        ensures { result ≡ due_at self.now }
    {
        if !self.is_up {
            return self.dial_until.unwrap_or(self.dial_at);
        }
        match &self.asked {
            Some(asked) => asked.until,
            None if self.is_sent() => self.rest_until,
            None => u64::MAX,
        }
    }
}

// what is asked, and what comes of it
impl DeviceConnection {
    /// Begins a request to a device at this unit, where one may begin; whether it did.
    pub fn begin(&mut self, asked: Asked, unit: u8, request: Request) -> bool
        requires quantity { HasQuantity request }
        ensures begins { IsTrue result → (begins : Begins self.old self.new) × (begins.asked ≡ asked) × (begins.request.unit ≡ unit) × (begins.request.request ≡ request) }
        ensures none { result ≡ false → self.new ≡ self.old }
    {
        if !self.is_free() {
            return false;
        }
        let id = self.id;
        self.id = id.wrapping_add(1);
        self.asked = Some(asked);
        self.out = self.pending.begin(id, unit, request);
        true
    }

    /// So many bytes are written.
    pub fn sent(&mut self, n: usize)
        ensures { Sends n self.old self.new }
    {
        let n = n.min(self.out.len());
        self.out = rest_after(&self.out, n);
    }

    /// Takes bytes of its stream, and tells how many, and what became of the request that is under way, which is over then and
    /// given away. Where none is under way none are taken. Over a connection that isn't well nothing is heard.
    pub fn take(&mut self, bytes: &[u8]) -> Intake
        ensures hears { Hears bytes.now (drop result.used bytes.now) result.fate self.old self.new }
        ensures used { result.used ≤ length bytes.now }
        ensures ended { result.asked ≡ ended_by result.fate self.old.asked }
    {
        if !self.is_well() {
            return Intake {
                used: bytes.len(),
                asked: None,
                fate: None,
            };
        }
        let BytesTaken { used, fate } = self.pending.take(bytes);
        if is_answered(&fate) {
            self.answered();
        }
        let asked = self.end_by(&fate);
        Intake { used, asked, fate }
    }

    /// The request that is under way is over where something became of it, and given away then.
    fn end_by(&mut self, fate: &Option<RequestEnd>) -> Option<Asked>
        ensures ended { result ≡ ended_by fate.now self.old.asked }
        ensures left { self.new.asked ≡ left_under_way fate.now self.old.asked }
        ensures rest { self.new ≡ record self.old { rest_until = self.new.rest_until; asked = self.new.asked } }
    {
        match fate {
            Some(_) => {
                self.rest_until = 0;
                self.asked.take()
            }
            None => None,
        }
    }

    /// A device answered.
    fn answered(&mut self)
        ensures { self.new ≡ record self.old { silent = 0; wait = 0; is_heard = true } }
    {
        self.silent = 0;
        self.wait = 0;
        self.is_heard = true;
    }

    /// The request that is under way is given up, and given away. A part of its frame that wasn't written spoils the stream.
    pub fn give_up(&mut self) -> Option<Asked>
        ensures gives { GivesUp self.old self.new }
        ensures asked { result ≡ self.old.asked }
    {
        self.rest_until = 0;
        let _ = self.pending.end();
        if !self.out.is_empty() {
            self.is_bad = true;
        }
        self.asked.take()
    }

    /// It is up from now on: a new stream.
    pub fn come_up(&mut self)
        ensures { ComesUp self.old self.new }
    {
        self.cut();
        self.is_up = true;
        self.rest_until = 0;
        self.silent = 0;
        self.is_heard = false;
    }

    /// It is down from now on. One that ended while nothing was under way is made again at once, any other after a while.
    pub fn go_down(&mut self, now: u64, limits: &Limits)
        ensures { GoesDown now limits.now self.old self.new }
    {
        if !self.is_idle() {
            self.wait = longer(self.wait, limits.period.min(1000), limits.back_off_most);
        }
        self.cut();
        self.is_up = false;
        self.dial_at = now.saturating_add(self.wait);
    }

    /// Its stream is over: nothing is under way, and nothing waits.
    fn cut(&mut self)
        ensures cut { IsCut self.new }
        ensures well { self.new.is_bad ≡ false }
        ensures wait { self.new.wait ≡ self.old.wait }
        ensures until { self.new.dial_until ≡ None }
    {
        self.pending = PendingRequest::new();
        self.asked = None;
        self.out = ArrayVec::new();
        self.is_bad = false;
        self.dial_until = None;
    }
}

// beside the request that is under way
impl DeviceConnection {
    /// A dial begins that may take until this time; none over a connection that is up.
    pub fn dial(&mut self, until: u64)
        ensures { self.new ≡ dialled until self.old }
    {
        if !self.is_up {
            self.dial_until = Some(until);
        }
    }

    /// It is to be hung up.
    #[tactic(auto, using(crate::proofs::Frames::keeps_by))]
    pub fn spoil(&mut self)
        ensures { Keeps self.old self.new }
    {
        self.is_bad = true;
    }

    /// Something happened: there may be something to ask.
    #[tactic(auto, using(crate::proofs::Frames::keeps_by))]
    pub fn stir(&mut self)
        ensures { Keeps self.old self.new }
    {
        self.rest_until = 0;
    }

    /// There is nothing to ask before this time, unless something happens.
    #[tactic(auto, using(crate::proofs::Frames::keeps_by))]
    pub fn rest_until(&mut self, until: u64)
        ensures { Keeps self.old self.new }
    {
        self.rest_until = until;
    }

    /// A device didn't answer. After two silent requests in a row for each of its devices and one more, the connection
    /// itself is at fault.
    #[tactic(auto, using(crate::proofs::Frames::keeps_by))]
    pub fn missed(&mut self)
        ensures { Keeps self.old self.new }
    {
        self.silent = self.silent.saturating_add(1);
        if self.silent >= self.devices.len().saturating_mul(2).saturating_add(1) {
            self.is_bad = true;
        }
    }
}

/// All but so many bytes at the front.
fn rest_after(bytes: &[u8], n: usize) -> ArrayVec<u8, 260>
    requires most { length bytes.now ≤ 260 }
    requires within { n ≤ length bytes.now }
    ensures { result.items ≡ drop n bytes.now }
{
    ArrayVec::try_from(bytes.split_at(n).1).unwrap()
}
