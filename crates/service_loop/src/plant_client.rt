//! A connection to a simulated plant.
ghost use Rattle.std.specs.Prelude.{◌≤◌};

use inverter_sim::Plant;
use mio::net::TcpStream;
use mio::{Interest, Registry, Token};
use modbus_frame::{Frame, FrameReply, Responder};
use service_edges::{Connection, Giver};
use service_requests::Session;

/// The most pieces of one turn.
const MOST_PIECES: u32 = 2;

/// Room for the answers of one turn.
const ROOM: usize = 2080;

/// A simulated plant whose devices may answer late.
#[derive(Drop)]
pub(crate) struct LatePlant {
    plant: Plant,
    /// Whether some device answers late.
    is_slow: bool,
    /// How many milliseconds late the last frame is answered.
    late: u32,
}

/// When the answer that a session has may go out.
#[derive(Clone, Copy)]
enum Hold {
    /// At once.
    Free,
    /// So many milliseconds from now on.
    For(u32),
    /// At this time.
    Until(u64),
}

/// A connection to a simulated plant.
#[derive(Drop)]
pub(crate) struct PlantClient {
    connection: Connection<TcpStream>,
    answers: Answers,
}

/// The answers of a plant to what came over one connection. One that is held stays in the session, and while it does no
/// further frame is taken.
#[derive(Drop)]
struct Answers {
    session: Session,
    hold: Hold,
    out: [u8; 2080],
    start: usize,
    end: usize,
    ghost begins: { start ≤ end },
    ghost room: { end ≤ 2080 },
}

impl LatePlant {
    /// A plant that waits as its devices are to.
    pub(crate) fn new(plant: Plant) -> LatePlant {
        let is_slow = has_slow(&plant);
        LatePlant {
            plant,
            is_slow,
            late: 0,
        }
    }
}

fn has_slow(plant: &Plant) -> bool {
    for unit in 0..=u8::MAX {
        if plant.delay_of(unit) > 0 {
            return true;
        }
    }
    false
}

impl Responder for LatePlant {
    ghost use Rattle.std.specs.Prelude.{⊤};

    ghost answers = { λ _ _ _ _ _. ⊤ };

    fn answer(&mut self, frame: &Frame) -> FrameReply {
        self.late = self.plant.delay_of(frame.unit);
        self.plant.answer(frame)
    }
}

impl Hold {
    /// For so many milliseconds.
    fn by(late: u32) -> Hold {
        if late > 0 {
            Hold::For(late)
        } else {
            Hold::Free
        }
    }

    fn is_free(self) -> bool {
        matches!(self, Hold::Free)
    }

    /// What is left of it at a time. A millisecond that has begun doesn't count.
    fn at(self, now: u64) -> Hold {
        match self {
            Hold::For(late) => Hold::Until(now.saturating_add(u64::from(late)).saturating_add(1)),
            Hold::Until(due) if now < due => self,
            _ => Hold::Free,
        }
    }
}

impl PlantClient {
    /// One whose connection is told of under a token; none where the system doesn't.
    pub(crate) fn new(registry: &Registry, token: Token, stream: TcpStream) -> Option<PlantClient> {
        let mut stream = stream;
        let _ = stream.set_nodelay(true);
        let interests = Interest::READABLE | Interest::WRITABLE;
        registry.register(&mut stream, token, interests).ok()?;
        Some(PlantClient {
            connection: Connection::new(stream),
            answers: Answers::new(),
        })
    }

    /// The system says that there is something to do.
    pub(crate) fn wake(&mut self) {
        self.connection.wake();
    }

    /// Whether there is something to do without a wait.
    pub(crate) fn is_busy(&self) -> bool {
        self.connection.is_busy(self.answers.unsent().len())
    }

    /// When an answer that is held may go out; none where none is.
    pub(crate) fn due(&self) -> Option<u64> {
        match self.answers.hold {
            Hold::Until(due) => Some(due),
            _ => None,
        }
    }

    /// Answers what came.
    pub(crate) fn receive(&mut self, plant: &mut LatePlant) {
        for _ in 0..MOST_PIECES {
            self.connection.fill();
            if self.connection.rest().is_empty() {
                return;
            }
            let used = self.answers.take(plant, self.connection.rest());
            self.connection.use_up(used);
            if used == 0 {
                return;
            }
        }
    }

    /// Sends what waits, as far as it may go out at a time.
    pub(crate) fn send(&mut self, now: u64) {
        self.answers.release(now);
        self.connection.send(&mut self.answers);
    }

    /// Whether the connection is over, or is to be closed. What was still to be sent then had its last chance.
    pub(crate) fn is_over(&self) -> bool {
        self.connection.is_broken()
            || self.answers.are_over()
            || self.connection.is_over() && self.answers.are_sent()
    }
}

impl Answers {
    fn new() -> Answers {
        Answers {
            session: Session::new(),
            hold: Hold::Free,
            out: [0; ROOM],
            start: 0,
            end: 0,
        }
    }

    /// Those that are to be sent.
    fn unsent(&self) -> &[u8] {
        &self.out[self.start..self.end]
    }

    /// Whether all that there are so far are sent.
    fn are_sent(&self) -> bool {
        self.start == self.end && self.hold.is_free()
    }

    /// Answers some frames of these bytes, where no answer waits; how many bytes these are.
    fn take(&mut self, plant: &mut LatePlant, bytes: &[u8]) -> usize {
        if !self.are_sent() {
            return 0;
        }
        if plant.is_slow {
            return self.take_one(plant, bytes);
        }
        let turned = self.session.turn(plant, bytes, &mut self.out);
        self.start = 0;
        self.end = turned.put;
        turned.used
    }

    /// Answers a frame of these bytes at most, and holds the answer of a slow device.
    fn take_one(&mut self, plant: &mut LatePlant, bytes: &[u8]) -> usize {
        if !self.session.is_free() {
            return 0;
        }
        let taken = self.session.take(plant, bytes);
        if taken.frames > 0 {
            self.hold = Hold::by(plant.late);
            self.put();
        }
        taken.used
    }

    /// Lets the answer that is held go out, where its time has come.
    fn release(&mut self, now: u64) {
        if self.hold.is_free() {
            return;
        }
        self.hold = self.hold.at(now);
        self.put();
    }

    /// Puts what the session has in the place of what is gone, unless it is held.
    fn put(&mut self) {
        if self.hold.is_free() {
            let end = self.session.put(&mut self.out);
            self.start = 0;
            self.end = end;
        }
    }

    /// So many bytes are gone; what still waits takes their place once all are.
    fn sent(&mut self, n: usize) {
        self.start += n.min(self.end - self.start);
        if self.start == self.end {
            self.put();
        }
    }

    /// Whether nothing more will be sent.
    fn are_over(&self) -> bool {
        self.are_sent() && self.session.is_over()
    }
}

impl Giver for Answers {
    ghost use Rattle.std.specs.Prelude.{None};

    ghost left = { λ _. None };

    fn waiting(&self) -> &[u8] {
        self.unsent()
    }

    fn gone(&mut self, n: usize) {
        self.sent(n);
    }
}
