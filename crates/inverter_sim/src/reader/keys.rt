//! The numbers and the lists of a plant file, and how many entries they have.
ghost use Rattle.std.specs.Prelude.{◌≡◌, ◌≢◌, ◌≤ℤ◌, pos, true, false, Some, None, MatchOption, MatchResult};
ghost use Rattle.toml.specs.View.{view, items_view};
ghost use Rattle.inverter_sim.specs.File.{is_in, integers_in, integers_at, any_of, is_meter_entry, works_has_too_many, device_has_too_many, has_too_many};
ghost use Rattle.inverter_sim.specs.Parts.{IsFirst, IsTooLong};
ghost use Rattle.inverter_sim.specs.declared.fault.PlantFault.TheVariants as fault;

use crate::fault::PlantFault;
use crate::part::PlantPart;
use file_keys::{has_over, list_at, text_at};
use std::alloc::Global;
use toml::Value;

/// A number from low to high, which are no less than 0 and no more than 1,000,000.
pub(crate) fn within(number: i64, low: i64, high: i64) -> Option<u32>
    requires low { pos 0 ≤ℤ low }
    requires high { high ≤ℤ pos 1000000 }
    ensures { MatchOption result (is_in low high number ≡ false)
        (λ n. (is_in low high number ≡ true) × (number ≡ pos n) × (pos n ≤ℤ high)) }
{
    if low <= number && number <= high {
        Some(number as u32)
    } else {
        None
    }
}

/// The whole numbers of the list at a key.
pub(crate) fn integers_at(alloc: Global, tree: &Value, key: &str) -> Result<Vec<i64>, PlantFault>
    ensures { MatchResult result (λ v. integers_at key.now (view tree.now) ≡ Some v.items)
        (λ e. e ≢ fault.OutOfMemory → (e ≡ fault.MissingKey) × (integers_at key.now (view tree.now) ≡ None)) }
{
    let Some(trees) = list_at(tree, key) else {
        return Err(PlantFault::MissingKey);
    };
    integers_in(alloc, trees)
}

fn integers_in(alloc: Global, trees: &Vec<Value>) -> Result<Vec<i64>, PlantFault>
    ensures { MatchResult result (λ v. integers_in (items_view trees.now.items) ≡ Some v.items)
        (λ e. e ≢ fault.OutOfMemory → (e ≡ fault.MissingKey) × (integers_in (items_view trees.now.items) ≡ None)) }
{
    let mut integers = Vec::new(alloc);
    for tree in trees {
        let Some(n) = tree.as_integer() else {
            return Err(PlantFault::MissingKey);
        };
        integers.push(n)?;
    }
    Ok(integers)
}

/// The most devices, models of a device, watts of a device and units of a meter.
pub const MOST_DEVICES: usize = 64;

pub const MOST_MODELS: usize = 16;

pub const MOST_WATTS: usize = 1024;

pub const MOST_UNITS: usize = 64;

fn is_meter_entry(tree: &Value) -> bool
    ensures { result ≡ is_meter_entry (view tree.now) }
{
    match text_at(tree, "kind") {
        Some(word) => word == "meter",
        None => false,
    }
}

fn works_has_too_many(tree: &Value) -> bool
    ensures { result ≡ works_has_too_many (view tree.now) }
{
    if is_meter_entry(tree) {
        has_over(MOST_WATTS, "load", tree) || has_over(MOST_UNITS, "behind", tree)
    } else {
        has_over(MOST_WATTS, "available", tree)
    }
}

fn device_has_too_many(tree: &Value) -> bool
    ensures { result ≡ device_has_too_many (view tree.now) }
{
    has_over(MOST_MODELS, "models", tree) || works_has_too_many(tree)
}

/// The number of the first device that has too many models, watts or units.
fn first_too_long(trees: &Vec<Value>) -> Option<usize>
    ensures { MatchOption result (any_of device_has_too_many (items_view trees.now.items) ≡ false)
        (λ n. IsFirst device_has_too_many n (items_view trees.now.items)) }
{
    let mut number = 0usize;
    for tree in trees {
        if device_has_too_many(tree) {
            return Some(number);
        }
        number += 1;
    }
    None
}

/// The part that has more devices, or models, watts or units of a device, than a plant has.
pub(crate) fn too_long(tree: &Value) -> Option<PlantPart>
    ensures { MatchOption result (has_too_many (view tree.now) ≡ false) (IsTooLong (view tree.now)) }
{
    if has_over(MOST_DEVICES, "device", tree) {
        return Some(PlantPart::File);
    }
    match list_at(tree, "device") {
        Some(devices) => first_too_long(devices).map(PlantPart::Device),
        None => None,
    }
}
