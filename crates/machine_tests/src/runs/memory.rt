//! Where memory is refused, a machine doesn't begin. Each test holds whichever of its allocations is refused: it ends
//! where it gets no memory for what it begins with.

use crate::runs::assert_same;
use crate::runs::machines::scanned;
use crate::worked::images::image;
use crate::worked::programs::NINE_TURNS;
use crate::worked::sites::{SITE, site_of};
use scan_vm::{Machine, Scan, Trial};
use site_model::Site;
use std::alloc::{AllocError, Global};
use std::process::Abort;
use verifier::Verified;
use verifier::verify::verify;

#[test]
fn a_trial_begins(rt: HostRuntime) {
    let Some(image) = image(rt.alloc(), 2, &NINE_TURNS, &[0]) else {
        return;
    };
    match Trial::new(rt.alloc(), image) {
        Ok(mut trial) => assert_same(&rt, &trial.scan(&[]), &Ok(Scan { steps: 93 })),
        Err(AllocError) => {}
    }
}

/// The program of nine turns, where it is accepted.
fn accepted(alloc: Global, site: &Site) -> Option<Verified<32>> {
    let image = image(alloc, 2, &NINE_TURNS, &[0])?;
    verify(alloc, image, site).ok()
}

fn assert_begins(rt: &impl Abort, alloc: Global, verified: Verified<32>) {
    match Machine::new(alloc, verified) {
        Ok(mut machine) => assert_same(rt, &scanned(rt, &mut machine, &[]).steps, &93),
        Err(AllocError) => {}
    }
}

#[test]
fn a_machine_begins(rt: HostRuntime) {
    let Some(site) = site_of(rt.alloc(), SITE) else {
        return;
    };
    if let Some(verified) = accepted(rt.alloc(), &site) {
        assert_begins(&rt, rt.alloc(), verified);
    }
}
