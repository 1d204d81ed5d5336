//! A link in memory, for tests.
ghost use Rattle.std.specs.Prelude.{◌≡◌, ◌<◌, ◌≤◌, ◌++◌, ◌↔◌, [], length, take, drop, None, Some, IfOk, OnOk, OnErr, IsErr, IsTrue};
ghost use Rattle.std.specs.Io.KnownBytes.{Keeps, ReadConsumes, WriteAppends};
ghost use Rattle.modbus_frame.specs.Link.{CountsBy, CountsRead, CountsWritten};
ghost use Rattle.modbus_frame.specs.InMemory.{is_now, one_less, read_len, write_len, read_of, failed_read, failed_write, FailsInMemory, GoesOnInMemory, CallsInMemory};

use crate::link::{Down, Link};
use std::alloc::{AllocError, Global};
use std::marker::Model;

/// A link over bytes in memory, for tests: it gives the bytes to come and keeps the bytes sent, at most so many in
/// one call, and one call answers [`Down`].
#[derive(Debug, Drop)]
pub struct MemLink {
    coming: Vec<u8>,
    position: usize,
    sent: Vec<u8>,
    largest: usize,
    down: Option<usize>,
    calls: u64,
    failed_reads: u64,
    failed_writes: u64,
    empty_reads: u64,
}

impl Model for MemLink {
    ghost use Rattle.std.specs.Prelude.{◌≤◌, ◌<◌, drop, vec_len};
    ghost use Rattle.modbus_frame.specs.InMemory.{InMemory, counted};

    ghost Value = { InMemory };

    ghost view = { λ l. record {
      coming = drop l.position l.coming.items;
      sent = l.sent.items;
      largest = l.largest;
      down = l.down;
      calls = counted l.calls;
      failures = record {
        reads = counted l.failed_reads;
        writes = counted l.failed_writes;
        ends = counted l.empty_reads;
      };
    } };

    ghost invariant = { λ l. (l.position ≤ vec_len l.coming) × (0 < l.largest) };
}

impl MemLink {
    /// A link with these bytes to come. One call carries at most `largest` bytes; of all calls, counted from 0, that
    /// of number `down` answers [`Down`].
    pub fn new(
        alloc: Global,
        coming: &[u8],
        largest: usize,
        down: Option<usize>,
    ) -> Result<MemLink, AllocError>
        requires { 0 < largest }
        ensures { IfOk result (λ l. l ≡ record {
          coming = coming.now;
          sent = [];
          largest = largest;
          down = down;
          calls = Some 0;
          failures = record { reads = Some 0; writes = Some 0; ends = Some 0 };
        }) }
    {
        Ok(MemLink {
            coming: Vec::from_slice(alloc, coming)?,
            position: 0,
            sent: Vec::new(alloc),
            largest,
            down,
            calls: 0,
            failed_reads: 0,
            failed_writes: 0,
            empty_reads: 0,
        })
    }

    /// The bytes to come.
    pub fn coming(&self) -> &[u8]
        ensures { result.now ≡ self.now.coming }
    {
        self.coming.split_at(self.position).1
    }

    /// The bytes sent.
    pub fn sent(&self) -> &[u8]
        ensures { result.now ≡ self.now.sent }
    {
        &self.sent
    }
}

impl Link for MemLink {
    ghost calls = { λ l. l.calls };

    ghost failures = { λ l. l.failures };

    ghost coming = { λ l. Some l.coming };

    ghost sent = { λ l. Some l.sent };

    fn read(&mut self, into: &mut [u8]) -> Result<usize, Down>
        requires { 0 < length into.old }
        ensures fits { IfOk result (λ n. n ≤ length into.old) }
        ensures reads { ReadConsumes (Some self.old.coming) (Some self.new.coming) result into.new }
        ensures keeps { Keeps (Some self.old.sent) (Some self.new.sent) }
        ensures failures { CountsRead self.old.failures self.new.failures result }
        ensures calls { CountsBy 1 self.old.calls self.new.calls }

        // It fails at the call that was named, and else gives as much as it may.
        ensures down { IsErr result ↔ IsTrue (is_now self.old.down) }
        ensures len { IfOk result (λ n. n ≡ read_len self.old (length into.old)) }
        ensures ok { OnOk result (GoesOnInMemory self.old self.new
            (drop (read_len self.old (length into.old)) self.old.coming) self.old.sent
            (read_of (read_len self.old (length into.old)) self.old.failures)) }
        ensures err { OnErr result (FailsInMemory self.old self.new (failed_read self.old.failures)) }
        ensures called { CallsInMemory self.old self.new }
    {
        self.calls = self.calls.saturating_add(1);
        if is_call(&mut self.down) {
            self.failed_reads = self.failed_reads.saturating_add(1);
            return Err(Down);
        }
        let (_, coming) = self.coming.split_at(self.position);
        let n = self.largest.min(into.len()).min(coming.len());
        into[..n].copy_from_slice(coming.split_at(n).0);
        self.position += n;
        if n == 0 {
            self.empty_reads = self.empty_reads.saturating_add(1);
        }
        Ok(n)
    }

    /// A growth that is refused answers [`Down`] too.
    fn write(&mut self, from: &[u8]) -> Result<usize, Down>
        requires { 0 < length from.now }
        ensures fits { IfOk result (λ n. n ≤ length from.now) }
        ensures writes { WriteAppends (Some self.old.sent) (Some self.new.sent) result from.now }
        ensures keeps { Keeps (Some self.old.coming) (Some self.new.coming) }
        ensures failures { CountsWritten self.old.failures self.new.failures result }
        ensures calls { CountsBy 1 self.old.calls self.new.calls }

        // It fails at the call that was named, and else takes as much as it may.
        ensures down { IsTrue (is_now self.old.down) → IsErr result }
        ensures len { IfOk result (λ n. n ≡ write_len self.old (length from.now)) }
        ensures ok { OnOk result (GoesOnInMemory self.old self.new self.old.coming
            (self.old.sent ++ take (write_len self.old (length from.now)) from.now) self.old.failures) }
        ensures err { OnErr result (FailsInMemory self.old self.new (failed_write self.old.failures)) }
        ensures called { CallsInMemory self.old self.new }
    {
        self.calls = self.calls.saturating_add(1);
        let n = self.largest.min(from.len());
        if is_call(&mut self.down) || self.sent.extend_from_slice(from.split_at(n).0).is_err() {
            self.failed_writes = self.failed_writes.saturating_add(1);
            return Err(Down);
        }
        Ok(n)
    }
}

// Whether this is the call whose number is counted down.
fn is_call(left: &mut Option<usize>) -> bool
    ensures now { result ≡ is_now left.old }
    ensures next { left.new ≡ one_less left.old }
{
    match *left {
        Some(0) => {
            *left = None;
            true
        }
        Some(n) => {
            *left = Some(n - 1);
            false
        }
        None => false,
    }
}
