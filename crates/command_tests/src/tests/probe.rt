//! A probe over a link that fails.
use crate::tests::links::{FailingLink, PLANT, PlantLink};
use crate::tests::{assert_same, assert_true, printed};
use commands::definitions::definitions;
use commands::probe;
use gateway::Poller;
use modbus_frame::Link;
use std::process::Abort;

/// What is printed, and the status.
type Told = (String, u8);

/// What is printed of unit 1 on a link.
fn told<L: Link + Drop>(rt: &(impl AllocGlobal + Abort), link: L) -> Told {
    let models = definitions(rt.alloc(), &[]).expect(rt, "the shipped definitions");
    let mut poller = Poller::new(link);
    let mut out = Vec::new(rt.alloc());
    let status = probe(rt.alloc(), &mut poller, 1, models.as_slice(), &mut out);
    (printed(rt, out), status)
}

/// Only that a link failed was printed.
fn assert_failed(rt: &impl Abort, told: &Told) {
    let lines = told.0.as_str();
    assert_same(rt, &told.1, &3);
    assert_true(rt, lines == "link: Read\n" || lines == "link: Write\n");
}

/// What a link printed that failed after so many calls.
fn assert_failed_or_whole(rt: &impl Abort, told: &Told, left: u32) {
    if told.1 == 0 {
        assert_true(rt, left > 0 && told.0.as_str().ends_with("end 40148\n"));
    } else {
        assert_true(rt, left < 99);
        assert_failed(rt, told);
    }
}

#[test]
fn a_link_that_fails_is_told_and_nothing_else(rt: HostRuntime) {
    for left in 0..100 {
        let link = FailingLink::new(PlantLink::new(&rt, PLANT), left);
        assert_failed_or_whole(&rt, &told(&rt, link), left);
    }
}
