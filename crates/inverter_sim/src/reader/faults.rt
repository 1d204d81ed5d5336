//! The `[[fault]]` entries of a plant file.
ghost use Rattle.std.specs.Prelude.{◌≡◌, ◌≢◌, ◌≤◌, [], Some, None, Ok, Err, pos, option_map, option_copied, IfErr, MatchResult, codes};
ghost use Rattle.toml.specs.View.{view, items_view};
ghost use Rattle.inverter_sim.specs.File.{own_key, own_number, fault_keys, misbehaviour_of, request_of, not_seen, fault_of, faults_from, faults_in, faults_of};
ghost use Rattle.file_keys.specs.Refusals.{IsRefusedIn};
ghost use Rattle.inverter_sim.specs.Parts.{IsFaultRefused, IsInSection};
ghost use Rattle.inverter_sim.specs.Reading.{fault_keys_view};
ghost use Rattle.inverter_sim.specs.declared.part.PlantPart.TheVariants as parts;
ghost use Rattle.inverter_sim.specs.declared.fault.PlantFault.TheVariants as fault;

use super::keys::within;
use crate::fault::PlantFault;
use crate::misbehaviour::{Fault, Misbehaviour};
use crate::part::PlantPart;
use file_keys::{is_more, number_at, section_at, text_at};
use std::alloc::Global;
use toml::Value;

pub const MOST_FAULTS: usize = 256;

/// The keys of an entry.
#[derive(Clone, Copy)]
struct FaultKeys<'a> {
    request: i64,
    kind: &'a str,
    number: i64,
}

/// The faults of a plant file; the part that the reader has come to is noted.
pub(crate) fn faults_of(
    alloc: Global,
    tree: &Value,
    part: &mut PlantPart,
) -> Result<Vec<Fault>, PlantFault>
    ensures read { MatchResult result (λ v. faults_of (view tree.now) ≡ Ok v.items)
        (λ e. e ≢ fault.OutOfMemory → faults_of (view tree.now) ≡ Err e) }
    ensures placed { IfErr result (λ e. e ≢ fault.OutOfMemory
        → IsInSection (codes "fault") IsFaultRefused (view tree.now) part.new e) }
{
    *part = PlantPart::File;
    let Some(entries) = section_at(tree, "fault") else {
        return Err(PlantFault::MissingKey);
    };
    faults_in(alloc, entries, part)
}

fn faults_in(
    alloc: Global,
    entries: &[Value],
    part: &mut PlantPart,
) -> Result<Vec<Fault>, PlantFault>
    requires { part.old ≡ parts.File }
    ensures read { MatchResult result (λ v. faults_in (items_view entries.now) ≡ Ok v.items)
        (λ e. e ≢ fault.OutOfMemory → faults_in (items_view entries.now) ≡ Err e) }
    ensures placed { IfErr result (λ e. e ≢ fault.OutOfMemory → IsFaultRefused (items_view entries.now) part.new e) }
{
    if is_more(entries, MOST_FAULTS) {
        return Err(PlantFault::TooMany);
    }
    read_faults(alloc, entries, part)
}

fn read_faults(
    alloc: Global,
    entries: &[Value],
    part: &mut PlantPart,
) -> Result<Vec<Fault>, PlantFault>
    ensures read { MatchResult result (λ v. faults_from [] (items_view entries.now) ≡ Ok v.items)
        (λ e. e ≢ fault.OutOfMemory → faults_from [] (items_view entries.now) ≡ Err e) }
    ensures placed { IfErr result (λ e. e ≢ fault.OutOfMemory
        → IsRefusedIn parts.Fault (faults_from []) fault_of (items_view entries.now) part.new e) }
{
    let mut faults = Vec::new(alloc);
    for entry in entries {
        *part = PlantPart::Fault(faults.len());
        let fault = fault_of(&faults, entry)?;
        faults.push(fault)?;
    }
    Ok(faults)
}

fn fault_of(seen: &[Fault], tree: &Value) -> Result<Fault, PlantFault>
    ensures { result ≡ fault_of seen.now (view tree.now) }
{
    let keys = fault_keys(tree).ok_or(PlantFault::MissingKey)?;
    let request = request_of(keys.request).ok_or(PlantFault::BadRange)?;
    let kind = misbehaviour_of(keys.kind, keys.number).ok_or(PlantFault::BadRange)?;
    not_seen(seen, Fault { request, kind })
}

fn not_seen(seen: &[Fault], fault: Fault) -> Result<Fault, PlantFault>
    ensures { result ≡ not_seen seen.now fault }
{
    for other in seen {
        if other.request == fault.request {
            return Err(PlantFault::Duplicate);
        }
    }
    Ok(fault)
}

fn fault_keys(tree: &Value) -> Option<FaultKeys<'_>>
    ensures { option_map fault_keys_view result ≡ fault_keys (view tree.now) }
{
    let request = number_at(tree, "request")?;
    let kind = text_at(tree, "kind")?;
    let number = own_number(tree, kind)?;
    Some(FaultKeys {
        request,
        kind,
        number,
    })
}

/// The key that a kind of fault has of its own.
pub fn own_key(kind: &str) -> Option<&'static str>
    ensures { option_copied result ≡ own_key kind.now }
{
    match kind {
        "exception" => Some("code"),
        "stale" => Some("count"),
        "garbage" => Some("word"),
        "cut" => Some("bytes"),
        _ => None,
    }
}

/// Its number; 0 for a kind without one.
fn own_number(tree: &Value, kind: &str) -> Option<i64>
    ensures { result ≡ own_number kind.now (view tree.now) }
{
    match own_key(kind) {
        Some(key) => number_at(tree, key),
        None => Some(0),
    }
}

fn misbehaviour_of(kind: &str, number: i64) -> Option<Misbehaviour>
    ensures { result ≡ misbehaviour_of kind.now number }
{
    match kind {
        "exception" => Some(Misbehaviour::Exception(within(number, 1, 255)? as u8)),
        "stale" => Some(Misbehaviour::Stale(within(number, 1, 100)? as u8)),
        "garbage" => Some(Misbehaviour::Garbage(within(number, 0, 65535)? as u16)),
        "length" => Some(Misbehaviour::Length),
        "cut" => Some(Misbehaviour::Cut(within(number, 0, 259)? as u16)),
        _ => None,
    }
}

fn request_of(number: i64) -> Option<u32>
    ensures { result ≡ request_of number }
{
    Some(within(number, 1, 1_000_000)? as u32)
}
