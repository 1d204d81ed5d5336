//! One scan of the program, on what is known.
ghost use Rattle.std.specs.Prelude.{◌≡◌, length, map, slice_set};
ghost use Rattle.gateway.specs.event_core.Core.{IsKnown, number_of, numbers_of, standing_of};
ghost use Rattle.gateway.specs.event_core.SiteRun.{IsScan, none_of, reading_at, stored_at};
ghost use Rattle.scan_vm.specs.Machine.{AreReadingsOf, IsRunning, Scans};
ghost use Rattle.verifier.specs.Verified.{HasLinks};

use crate::event_core::memory::Memory;
use point_types::{Cause, Reading};
use scan_vm::Machine;
use site_model::{Site, Words};
use verifier::TagLink;

/// Reads the tags, runs the program once, and keeps what it stored and read, and by which blocks. Takes no memory.
pub(crate) fn scan<const DEPTH: usize>(
    site: &Site,
    machine: &mut Machine<DEPTH>,
    known: &mut Memory,
    inputs: &mut [Reading],
)
    requires matched { HasLinks site.now.tags machine.old.accepted.links }
    requires linked { length machine.old.accepted.links ≡ length machine.old.accepted.image.tags }
    requires known { IsKnown site.now known.old }
    requires inputs { length inputs.old ≡ length machine.old.accepted.links }
    ensures scan { IsScan site.now machine.old.accepted.image (numbers_of machine.old.accepted) machine.old.accepted.budget
        (standing_of machine.old known.old) (standing_of machine.new known.new) }
    ensures machine { Scans DEPTH machine.old (map (reading_at known.new.readings.items) (numbers_of machine.old.accepted)) known.new.steps machine.new }
    ensures accepted { machine.new.accepted ≡ machine.old.accepted }
    ensures known { IsKnown site.now known.new }
    ensures inputs { length inputs.new ≡ length inputs.old }
{
    site.readings(
        &known.blocks,
        &known.sets,
        known.elapsed,
        &mut known.readings,
    );
    gather(machine.verified().links(), &known.readings, inputs);
    known.steps = run_once(machine, inputs);
    scatter(machine, &mut known.outputs);
    copy_blocks(&known.blocks, &mut known.scanned);
    known.elapsed = Some(0);
}

/// Runs the program once, and gives the number of its instructions.
fn run_once<const DEPTH: usize>(machine: &mut Machine<DEPTH>, inputs: &[Reading]) -> u32
    requires tags { length inputs.now ≡ length machine.old.accepted.image.tags }
    requires readings { AreReadingsOf machine.old.accepted.links inputs.now }
    ensures scan { Scans DEPTH machine.old inputs.now result machine.new }
    ensures ranges { IsRunning DEPTH machine.new }
{
    machine.scan(inputs).steps
}

/// The readings of the program's tags.
fn gather(links: &[TagLink], readings: &[Reading], inputs: &mut [Reading])
    requires { length inputs.old ≡ length links.now }
    ensures inputs { inputs.new ≡ map (λ link. reading_at readings.now (number_of link)) links.now }
    ensures len { length inputs.new ≡ length inputs.old }
{
    for (i, link) in links.iter().enumerate() {
        inputs[i] = reading_at(readings, link.number);
    }
}

fn reading_at(readings: &[Reading], n: usize) -> Reading
    ensures { result ≡ reading_at readings.now n }
{
    match readings.get(n) {
        Some(reading) => *reading,
        None => Reading::Absent(Cause::NoBlock),
    }
}

/// What the program stored, at the numbers of the site's tags.
fn scatter<const DEPTH: usize>(machine: &Machine<DEPTH>, outputs: &mut [Option<i64>])
    requires { length machine.now.accepted.links ≡ length machine.now.accepted.image.tags }
    ensures stored { outputs.new ≡ stored_at (numbers_of machine.now.accepted) machine.now.outputs (none_of outputs.old) }
    ensures len { length outputs.new ≡ length outputs.old }
{
    clear(outputs);
    for (i, link) in machine.verified().links().iter().enumerate() {
        put(outputs, link.number, machine.output(i));
    }
}

fn clear(outputs: &mut [Option<i64>])
    ensures none { outputs.new ≡ none_of outputs.old }
    ensures len { length outputs.new ≡ length outputs.old }
{
    for output in outputs.iter_mut() {
        *output = None;
    }
}

/// Replaces the entry of this number, where there is one.
fn put(outputs: &mut [Option<i64>], n: usize, output: Option<i64>)
    ensures after { outputs.new ≡ slice_set outputs.old n output }
    ensures len { length outputs.new ≡ length outputs.old }
{
    if n < outputs.len() {
        outputs[n] = output;
    }
}

fn copy_blocks(from: &[Option<Words>], into: &mut [Option<Words>])
    requires { length into.old ≡ length from.now }
    ensures { into.new ≡ from.now }
{
    for (i, entry) in from.iter().enumerate() {
        into[i] = copied(entry);
    }
}

fn copied(entry: &Option<Words>) -> Option<Words>
    ensures { result ≡ entry.now }
{
    match entry {
        Some(words) => Words::from_slice(words.as_slice()),
        None => None,
    }
}
