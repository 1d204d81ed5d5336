//! Accepted programs, on the machine that tests nothing and on the one that tests each step: both give the same.

ghost use Rattle.std.specs.Prelude.{◌≡◌, true, length, Some};
ghost use Rattle.scan_vm.specs.Machine.{AreReadingsOf};
ghost use Rattle.verifier.specs.Links.{is_stored};
ghost use Rattle.verifier.specs.Ranges.{range_of};
ghost use Rattle.verifier.specs.Sound.{IsInputOf, IsReadingOf};

use crate::runs::worked::{
    BRANCHES_CASE, Case, DEFERRED_CASE, GUARDED_CASE, LIMITED_CASE, MOST_TURNS_CASE,
    NINE_TURNS_CASE, NO_REST_CASE, OF_POWERS, OTHER_BRANCHES_CASE, POWERS, QUOTIENTS, SUM_CASE,
    TOWARD_ZERO_CASE, Worked,
};
use crate::runs::{assert_same, image_of, sixty_two_jumps, trial, tried_output, tried_value};
use crate::worked::programs::{Program, QUOTIENT};
use crate::worked::sites::{SITE, site_of};
use point_types::Reading;
use scan_code::Image;
use scan_vm::{Machine, Scan, Trial};
use site_model::{Access, Site};
use std::alloc::Global;
use std::process::Abort;
use verifier::TagLink;
use verifier::verify::verify;

pub(crate) fn site(rt: &impl Abort, alloc: Global) -> Site {
    site_of(alloc, SITE).expect(rt, "a site")
}

fn machine_of(rt: &impl Abort, alloc: Global, image: Image, site: &Site) -> Machine<32> {
    let verified = verify(alloc, image, site).ok();
    Machine::new(alloc, verified.expect(rt, "a yes")).expect(rt, "memory")
}

/// The machine of a program that is accepted, with these start values.
pub(crate) fn accepted(
    rt: &impl Abort,
    alloc: Global,
    site: &Site,
    program: &Program,
    starts: &[i64],
) -> Machine<32> {
    machine_of(rt, alloc, image_of(rt, alloc, program, starts), site)
}

/// Whether an input may have a reading.
fn is_reading(link: &TagLink, reading: &Reading) -> bool
    ensures { result ≡ true → IsInputOf (range_of link.now) reading.now }
{
    match reading {
        Reading::Value(n) => link.site.low <= *n && *n <= link.site.high,
        Reading::Default(n, _) => link.site.low <= *n && *n <= link.site.high,
        Reading::Absent(_) => link.site.default.is_none(),
    }
}

fn is_stored(access: Access) -> bool
    ensures { result ≡ is_stored access }
{
    match access {
        Access::Output | Access::Shown => true,
        Access::Input | Access::Setting | Access::Time => false,
    }
}

/// The same, where those of outputs aren't looked at.
fn fits(link: &TagLink, reading: &Reading) -> bool
    ensures { result ≡ true → IsReadingOf (Some (range_of link.now)) (Some reading.now) }
{
    is_stored(link.site.access) || is_reading(link, reading)
}

/// Whether there is such a reading for each tag.
#[tactic(auto, using(crate::proofs::Readings::none_wanted, crate::proofs::Readings::one_more_given))]
fn are_readings(links: &[TagLink], readings: &[Reading]) -> bool
    ensures { result ≡ true → AreReadingsOf links.now readings.now }
{
    match (links, readings) {
        ([], _) => true,
        ([link, links @ ..], [reading, readings @ ..]) => {
            fits(link, reading) && are_readings(links, readings)
        }
        ([_, ..], []) => false,
    }
}

fn value(machine: &Machine<32>, i: usize) -> Option<i64> {
    if i < machine.verified().image().vars.len() {
        Some(machine.var(i))
    } else {
        None
    }
}

fn output(machine: &Machine<32>, t: usize) -> Option<i64> {
    if t < machine.verified().image().tags.len() {
        machine.output(t)
    } else {
        None
    }
}

/// A scan of readings that it may be given.
pub(crate) fn scanned(rt: &impl Abort, machine: &mut Machine<32>, readings: &[Reading]) -> Scan {
    let tags = machine.verified().image().tags.len();
    assert!(rt; readings.len() == tags);
    let are_allowed = are_readings(machine.verified().links(), readings);
    assert!(rt; are_allowed);
    machine.scan(readings)
}

/// Both machines have the same variables and outputs.
fn assert_agree(rt: &impl Abort, trial: &Trial, machine: &Machine<32>) {
    for i in 0..4 {
        assert_same(rt, &tried_value(trial, i), &value(machine, i));
        assert_same(rt, &tried_output(trial, i), &output(machine, i));
    }
}

/// One scan of both machines: both end, with the same steps, variables and outputs. Gives the steps.
fn scan_both(
    rt: &impl Abort,
    trial: &mut Trial,
    machine: &mut Machine<32>,
    readings: &[Reading],
) -> u32 {
    let scan = scanned(rt, machine, readings);
    assert_same(rt, &trial.scan(readings), &Ok(scan));
    assert_agree(rt, trial, machine);
    scan.steps
}

/// The machine has these variables and outputs, as far as there are two of them.
fn assert_stands(rt: &impl Abort, machine: &Machine<32>, scan: &Worked) {
    for i in 0..2 {
        assert_same(rt, &value(machine, i), &scan.variables.get(i).copied());
        let stored = scan.outputs.get(i).copied().unwrap_or(None);
        assert_same(rt, &output(machine, i), &stored);
    }
}

/// The scans of a case, one after the other.
fn run(rt: &impl Abort, trial: &mut Trial, machine: &mut Machine<32>, scans: &[Worked]) {
    for scan in scans {
        let steps = scan_both(rt, trial, machine, scan.readings);
        assert_same(rt, &steps, &scan.steps);
        assert_stands(rt, machine, scan);
    }
}

/// A case on this machine, and on a trial beside it.
fn run_beside(rt: &impl Abort, alloc: Global, machine: &mut Machine<32>, case: &Case) {
    let mut trial = trial(rt, alloc, &case.program, case.starts);
    run(rt, &mut trial, machine, case.scans);
}

fn run_case(rt: &impl Abort, alloc: Global, site: &Site, case: &Case) {
    let mut machine = accepted(rt, alloc, site, &case.program, case.starts);
    assert_same(rt, &machine.verified().budget(), &case.budget);
    run_beside(rt, alloc, &mut machine, case);
}

// Each case is passed on its own: in one table they take the prover much longer.
#[test]
fn runs_accepted_programs(rt: HostRuntime) {
    let site = site(&rt, rt.alloc());
    run_case(&rt, rt.alloc(), &site, SUM_CASE);
    run_case(&rt, rt.alloc(), &site, BRANCHES_CASE);
    run_case(&rt, rt.alloc(), &site, OTHER_BRANCHES_CASE);
    run_case(&rt, rt.alloc(), &site, NINE_TURNS_CASE);
    run_case(&rt, rt.alloc(), &site, MOST_TURNS_CASE);
    run_case(&rt, rt.alloc(), &site, GUARDED_CASE);
    run_case(&rt, rt.alloc(), &site, LIMITED_CASE);
    run_case(&rt, rt.alloc(), &site, TOWARD_ZERO_CASE);
    run_case(&rt, rt.alloc(), &site, DEFERRED_CASE);
    run_case(&rt, rt.alloc(), &site, NO_REST_CASE);
}

/// 100 by a divisor, on this machine and on a trial beside it: the steps and the quotient.
fn divide_beside(
    rt: &impl Abort,
    alloc: Global,
    machine: &mut Machine<32>,
    divisor: i64,
) -> (u32, Option<i64>) {
    let mut trial = trial(rt, alloc, &QUOTIENT, &[divisor, 0]);
    let steps = scan_both(rt, &mut trial, machine, &[]);
    (steps, value(machine, 1))
}

fn divide(rt: &impl Abort, alloc: Global, site: &Site, divisor: i64) -> (u32, Option<i64>) {
    let mut machine = accepted(rt, alloc, site, &QUOTIENT, &[divisor, 0]);
    assert_same(rt, &machine.verified().budget(), &11);
    divide_beside(rt, alloc, &mut machine, divisor)
}

#[test]
fn divides_by_what_is_not_zero(rt: HostRuntime) {
    let site = site(&rt, rt.alloc());
    for (divisor, steps, quotient) in &QUOTIENTS {
        let found = divide(&rt, rt.alloc(), &site, *divisor);
        assert_same(&rt, &found, &(*steps, Some(*quotient)));
    }
}

/// Scans on each pair of powers, one after the other.
fn scan_pairs(rt: &impl Abort, trial: &mut Trial, machine: &mut Machine<32>) {
    for first in &POWERS {
        for second in &POWERS {
            scan_both(rt, trial, machine, &[*first, *second]);
        }
    }
}

/// Those scans of a program on this machine, and on a trial beside it.
fn scan_beside(rt: &impl Abort, alloc: Global, machine: &mut Machine<32>, program: &Program) {
    let mut trial = trial(rt, alloc, program, &[0]);
    scan_pairs(rt, &mut trial, machine);
}

fn agree_on_pairs(rt: &impl Abort, alloc: Global, site: &Site, program: &Program) {
    let mut machine = accepted(rt, alloc, site, program, &[0]);
    scan_beside(rt, alloc, &mut machine, program);
}

#[test]
fn agrees_on_each_pair_of_powers(rt: HostRuntime) {
    let site = site(&rt, rt.alloc());
    for program in &OF_POWERS {
        agree_on_pairs(&rt, rt.alloc(), &site, program);
    }
}

fn assert_taken(rt: &impl Abort, mut machine: Machine<32>) {
    assert_same(rt, &machine.verified().budget(), &996_093);
    assert_same(rt, &scanned(rt, &mut machine, &[]).steps, &15_873);
}

#[test]
fn takes_each_of_62_counted_jumps(rt: HostRuntime) {
    let site = site(&rt, rt.alloc());
    let image = sixty_two_jumps(&rt, rt.alloc());
    assert_taken(&rt, machine_of(&rt, rt.alloc(), image, &site));
}
