//! Links that take nothing, and links over the halves of a stream.

use crate::served::assert_same;
use gateway::{Outcome, Poller};
use modbus_frame::{Down, Link, LinkFault, Request, StreamLink, Words};
use std::process::Abort;

const W: Request = Request::Read {
    addr: 40084,
    qty: 1,
};

/// Gives nothing, and takes nothing.
#[derive(Drop)]
struct Deaf {
    writes: u64,
}

impl Link for Deaf {
    ghost use Rattle.std.specs.Prelude.{None};
    ghost use Rattle.modbus_frame.specs.Link.{untold};

    ghost calls = { λ _. None };

    ghost failures = { λ _. untold };

    ghost coming = { λ _. None };

    ghost sent = { λ _. None };

    fn read(&mut self, _into: &mut [u8]) -> Result<usize, Down> {
        Ok(0)
    }

    fn write(&mut self, _from: &[u8]) -> Result<usize, Down> {
        self.writes = self.writes.saturating_add(1);
        Ok(0)
    }
}

#[test]
fn writes_that_take_nothing(rt: HostRuntime) {
    let mut poller = Poller::new(Deaf { writes: 0 });
    for _ in 0..2 {
        assert_same(&rt, &poller.ask(1, &W), &Err(LinkFault::Turns));
        assert_same(&rt, &poller.link().writes, &1_000_000);
    }
}

#[test]
fn over_two_halves_of_a_stream(rt: HostRuntime) {
    let reply = [0, 0, 0, 0, 0, 5, 1, 3, 2, 9, 0xC4, 77];
    let mut poller = Poller::new(StreamLink::new(&reply[..], Vec::new(rt.alloc())));
    let words = Words::from_slice(&[2500]).expect(&rt, "a word");
    assert_same(&rt, &poller.ask(1, &W), &Ok(Outcome::Words(words)));
    let (left, sent) = poller.into_link().into_halves();
    let request = [0, 0, 0, 0, 0, 6, 1, 3, 0x9C, 0x94, 0, 1];
    assert_same(&rt, &sent.as_slice(), &&request[..]);
    assert_same(&rt, &left.len(), &0);
}
