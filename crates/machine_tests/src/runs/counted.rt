//! The scans of a case, once and a thousand times: `tools/count-memory` wants as many allocations of both.

use crate::runs::machines::{accepted, scanned, site};
use crate::runs::worked::{Case, NINE_TURNS_CASE, SUM_CASE};
use crate::runs::{assert_same, trial};
use scan_vm::{Machine, Trial};
use std::alloc::Global;
use std::process::Abort;

fn scan_machine(rt: &impl Abort, machine: &mut Machine<32>, case: &Case) {
    for scan in case.scans {
        assert_same(rt, &scanned(rt, machine, scan.readings).steps, &scan.steps);
    }
}

fn scan_machine_often(rt: &impl Abort, alloc: Global, case: &Case, rounds: u32) {
    let site = site(rt, alloc);
    let mut machine = accepted(rt, alloc, &site, &case.program, case.starts);
    for _ in 0..rounds {
        scan_machine(rt, &mut machine, case);
    }
}

fn scan_trial(rt: &impl Abort, trial: &mut Trial, case: &Case) {
    for scan in case.scans {
        let steps = trial.scan(scan.readings).ok().expect(rt, "an end").steps;
        assert_same(rt, &steps, &scan.steps);
    }
}

fn scan_trial_often(rt: &impl Abort, alloc: Global, case: &Case, rounds: u32) {
    let mut trial = trial(rt, alloc, &case.program, case.starts);
    for _ in 0..rounds {
        scan_trial(rt, &mut trial, case);
    }
}

#[test]
fn a_machine_once(rt: HostRuntime) {
    scan_machine_often(&rt, rt.alloc(), SUM_CASE, 1);
    scan_machine_often(&rt, rt.alloc(), NINE_TURNS_CASE, 1);
}

#[test]
fn a_machine_often(rt: HostRuntime) {
    scan_machine_often(&rt, rt.alloc(), SUM_CASE, 1000);
    scan_machine_often(&rt, rt.alloc(), NINE_TURNS_CASE, 1000);
}

#[test]
fn a_trial_once(rt: HostRuntime) {
    scan_trial_often(&rt, rt.alloc(), SUM_CASE, 1);
    scan_trial_often(&rt, rt.alloc(), NINE_TURNS_CASE, 1);
}

#[test]
fn a_trial_often(rt: HostRuntime) {
    scan_trial_often(&rt, rt.alloc(), SUM_CASE, 1000);
    scan_trial_often(&rt, rt.alloc(), NINE_TURNS_CASE, 1000);
}
