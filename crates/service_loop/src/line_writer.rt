//! Where lines are told.
ghost use Rattle.std.specs.Prelude.{string_bytes, IfOk};
ghost use Rattle.service_loop.specs.Timing.{IsLineAt};

use crate::room::Room;
use history::EventRing;
use service_texts::{Times, client_line, left_out_line, stamped, time_of_day, timed_line};
use std::alloc::{AllocError, Global};
use std::io::Write;
use std::net::SocketAddr;

/// Writes lines after their time. One that can't be written without a wait, or for which memory is
/// refused, is left out and counted, and the count is told once a line can be written again: the service goes on.
#[derive(Drop)]
pub(crate) struct LineWriter<'a, W: Write> {
    out: &'a mut W,
    alloc: Global,
    room: Room,
    /// By which time lines are told.
    times: Times,
    /// The milliseconds since the start.
    now: u64,
    /// The seconds since 1970-01-01T00:00:00Z, where they are known.
    seconds: Option<u64>,
    /// The same at the start.
    began_at: Option<u64>,
    /// How many lines were left out since one was written.
    left_out: u64,
    /// How many were since the start.
    all_left_out: u64,
    /// How many lines were told after their time, also of those that were left out.
    told: u64,
    /// The last of these; None where nobody looks at them.
    events: Option<EventRing>,
}

impl<'a, W: Write> LineWriter<'a, W> {
    /// At the start, so many seconds after 1970-01-01T00:00:00Z.
    pub(crate) fn new(
        alloc: Global,
        out: &'a mut W,
        room: Room,
        times: Times,
        seconds: Option<u64>,
        events: Option<EventRing>,
    ) -> LineWriter<'a, W> {
        LineWriter {
            out,
            alloc,
            room,
            times,
            now: 0,
            seconds,
            began_at: seconds,
            left_out: 0,
            all_left_out: 0,
            told: 0,
            events,
        }
    }

    /// From now on lines have this time: the milliseconds since the start, and the seconds since 1970-01-01T00:00:00Z.
    pub(crate) fn turn_to(&mut self, now: u64, seconds: Option<u64>) {
        self.now = now;
        self.seconds = seconds;
    }

    /// The time of its lines, in milliseconds since the start.
    pub(crate) fn now(&self) -> u64 {
        self.now
    }

    /// The time of day of its lines.
    pub(crate) fn time_of_day(&self) -> Result<String, AllocError> {
        time_of_day(self.alloc, self.seconds)
    }

    /// The time of day so many seconds after the start, by the clock of the start.
    pub(crate) fn time_after_start(&self, since: u64) -> Result<String, AllocError> {
        time_of_day(self.alloc, time_after(self.began_at, since))
    }

    /// The seconds since 1970-01-01T00:00:00Z at the start, where they are known.
    pub(crate) fn began_at(&self) -> Option<u64> {
        self.began_at
    }

    /// The same of its lines.
    pub(crate) fn seconds(&self) -> Option<u64> {
        self.seconds
    }

    /// How many lines were told after their time, also of those that were left out.
    pub(crate) fn told(&self) -> u64 {
        self.told
    }

    /// The last of these, where somebody may look at them.
    pub(crate) fn events(&self) -> Option<&EventRing> {
        self.events.as_ref()
    }

    /// How many lines were left out since the start.
    pub(crate) fn left_out(&self) -> u64 {
        self.all_left_out
    }

    /// Writes a line, after the time.
    pub(crate) fn tell(&mut self, line: Result<String, AllocError>) {
        self.tell_left_out();
        let written = match line {
            Ok(line) => {
                self.note(line.as_str());
                self.write_stamped(line.as_str())
            }
            Err(AllocError) => false,
        };
        self.count(written);
    }

    /// Counts a line, and keeps it for those who look.
    fn note(&mut self, line: &str) {
        self.told = self.told.saturating_add(1);
        if self.events.is_none() {
            return;
        }
        let time = self.time_of_day();
        if let Some(events) = &mut self.events {
            match time {
                Ok(time) => events.tell(self.told, time.as_str(), line),
                Err(AllocError) => events.tell(self.told, "-", line),
            }
        }
    }

    /// Writes a line as it is.
    pub(crate) fn tell_plain(&mut self, line: Result<String, AllocError>) {
        self.tell_left_out();
        let written = match line {
            Ok(line) => self.write(line.as_str()),
            Err(AllocError) => false,
        };
        self.count(written);
    }

    /// Tells what a client did.
    pub(crate) fn tell_client(&mut self, address: SocketAddr, what: &str) {
        self.tell(client_line(self.alloc, address, what));
    }

    /// Tells what a client did, where there is memory for that.
    pub(crate) fn tell_what(&mut self, address: SocketAddr, what: Result<String, AllocError>) {
        match what {
            Ok(what) => self.tell_client(address, what.as_str()),
            Err(AllocError) => self.tell(Err(AllocError)),
        }
    }

    fn tell_left_out(&mut self) {
        if self.left_out > 0 {
            let written = match left_out_line(self.alloc, self.left_out) {
                Ok(line) => self.write_stamped(line.as_str()),
                Err(AllocError) => false,
            };
            if written {
                self.left_out = 0;
            }
        }
    }

    fn count(&mut self, written: bool) {
        if !written {
            self.left_out = self.left_out.saturating_add(1);
            self.all_left_out = self.all_left_out.saturating_add(1);
        }
    }

    fn write_stamped(&mut self, line: &str) -> bool {
        match line_at(self.alloc, self.times, self.now, self.seconds, line) {
            Ok(line) => self.write(line.as_str()),
            Err(AllocError) => false,
        }
    }

    fn write(&mut self, line: &str) -> bool {
        self.room.is_there() && self.out.write_all(line.as_bytes()).is_ok()
    }
}

fn time_after(began_at: Option<u64>, since: u64) -> Option<u64> {
    match began_at {
        Some(seconds) => Some(seconds.saturating_add(since)),
        None => None,
    }
}

/// A line after its time: the milliseconds since the start, or the time of day after so many seconds.
fn line_at(
    alloc: Global,
    times: Times,
    now: u64,
    seconds: Option<u64>,
    line: &str,
) -> Result<String, AllocError>
    ensures { IfOk result (λ text. IsLineAt times now seconds line.now (string_bytes text)) }
{
    match times {
        Times::Seconds => stamped(alloc, now, line),
        Times::Utc => timed_line(alloc, seconds, line),
    }
}
