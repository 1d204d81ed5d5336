//! The connection of one who looks.
use crate::pages::Pages;
use http_server::{Config, Connection};
use std::alloc::Global;
use std::hash::RandomState;
use std::io::{ErrorKind, Read, Write};

/// What is sent to one for whom there is no place.
pub const TOO_MANY: &[u8] =
    b"HTTP/1.1 503 Service Unavailable\r\ncontent-length: 0\r\nconnection: close\r\n\r\n";

/// How long a request may take to come, in milliseconds.
const REQUEST: u64 = 10_000;

/// How long a connection may be without one, in milliseconds.
const IDLE: u64 = 60_000;

/// The longest head of a request, in bytes.
const MOST_HEAD: usize = 8192;

/// The connection of one who looks, over a stream that doesn't wait. The system says once that there is something to do: from
/// then on there may be, until a call would have to wait. Times are in milliseconds.
#[derive(Drop)]
pub struct PageConnection<S: Read + Write + Drop> {
    stream: S,
    http: Connection,
    is_readable: bool,
    is_writable: bool,
    is_broken: bool,
    /// Since when some of a request is there; None where none of one is.
    asked_at: Option<u64>,
    /// When it came, or the last answer was made.
    answered_at: u64,
}

impl<S: Read + Write + Drop> PageConnection<S> {
    /// Over this stream, of which nothing was read.
    pub fn new(alloc: Global, keys: RandomState, stream: S, now: u64) -> PageConnection<S> {
        let mut config = Config::default();
        config.limits.max_head_len = MOST_HEAD;
        config.max_body_len = 0;
        PageConnection {
            stream,
            http: Connection::new(alloc, keys, config),
            is_readable: true,
            is_writable: true,
            is_broken: false,
            asked_at: None,
            answered_at: now,
        }
    }

    /// The system says that there is something to do.
    pub fn wake(&mut self) {
        self.is_readable = true;
        self.is_writable = true;
    }

    /// Whether there is something to do without a wait.
    pub fn is_busy(&self) -> bool {
        if self.is_broken || self.http.is_done() {
            return true;
        }
        self.is_readable && self.http.wants_read() || self.is_writable && self.http.wants_write()
    }

    /// Whether it is over, or was silent for too long.
    pub fn is_over(&self, now: u64) -> bool {
        self.is_broken || self.http.is_done() || self.is_late(now)
    }

    fn is_late(&self, now: u64) -> bool {
        match self.asked_at {
            Some(at) => now.saturating_sub(at) >= REQUEST,
            None => now.saturating_sub(self.answered_at) >= IDLE,
        }
    }

    /// Takes one piece of what came, answers what is asked in it, and sends one piece of what waits.
    pub fn turn(&mut self, pages: &mut Pages<'_>, now: u64) {
        self.receive(now);
        self.answer(pages, now);
        self.send();
        self.answer(pages, now);
    }

    fn receive(&mut self, now: u64) {
        if !self.is_readable || !self.http.wants_read() {
            return;
        }
        match self.http.read_from(&mut self.stream) {
            Ok(0) => self.is_readable = false,
            Ok(_) => self.note_asked(now),
            Err(fault) => self.not_read(fault.kind()),
        }
    }

    fn note_asked(&mut self, now: u64) {
        if self.asked_at.is_none() {
            self.asked_at = Some(now);
        }
    }

    fn not_read(&mut self, kind: ErrorKind) {
        match kind {
            ErrorKind::WouldBlock => self.is_readable = false,
            ErrorKind::Interrupted => {}
            _ => self.is_broken = true,
        }
    }

    fn answer(&mut self, pages: &mut Pages<'_>, now: u64) {
        let answered = pages.answered();
        self.http.advance(pages);
        if pages.answered() != answered {
            self.asked_at = None;
            self.answered_at = now;
        }
    }

    fn send(&mut self) {
        if !self.is_writable || !self.http.wants_write() {
            return;
        }
        match self.http.write_to(&mut self.stream) {
            Ok(0) => self.is_broken = true,
            Ok(_) => {}
            Err(fault) => self.not_written(fault.kind()),
        }
    }

    fn not_written(&mut self, kind: ErrorKind) {
        match kind {
            ErrorKind::WouldBlock => self.is_writable = false,
            ErrorKind::Interrupted => {}
            _ => self.is_broken = true,
        }
    }
}
