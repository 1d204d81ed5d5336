//! From the JSON of a definition to the definition.
ghost use Rattle.std.specs.Prelude.{◌≡◌, ◌≢◌, ◌≤◌, ℕ, pos, [], Some, None, true, false, option_map, IfOk, IfErr, OnOk, MatchOption};
ghost use Rattle.serde_json.specs.Data.{Data};
ghost use Rattle.serde_json.specs.View.{view, items_view};
ghost use Rattle.model_defs.specs.Definition.{IsRead, Breaks, StandsFor, first_broken, outline_of, is_model_id, repeats, broken_among, descriptions_of};
ghost use Rattle.model_defs.specs.Descriptions.{outline_view, descriptions_view};
ghost use Rattle.model_defs.specs.Parts.{IsAtFault, IsPointRefused, IsTreeFault};
ghost use Rattle.model_defs.specs.declared.part.DefPart.TheVariants as parts;
ghost use Rattle.model_defs.specs.declared.fault.DefFault.{DefFault};
ghost use Rattle.model_defs.specs.declared.fault.DefFault.TheVariants as fault;

use crate::description::Descriptions;
use crate::fault::DefFault;
use crate::model::ModelDef;
use crate::part::DefPart;
use crate::placing::lay_out;
use crate::point_object::{read_point, whole_number};
use file_keys::Placed;
use indexmap::IndexMap;
use serde_json::Value;
use std::alloc::Global;

/// Reads a model's definition in SunSpec's JSON form (SunSpec Device Information Model Specification, model
/// definitions in JSON): a whole `id` and an object `group` with an array `points`; of each point `name`,
/// `type` and `size`, and where they are there `sf` (a point's name or a whole number) and `access` (`R` or
/// `RW`, R where it is missing). Other keys aren't looked at, but for the group's `groups`, which has to be
/// empty. The first rule that the text breaks, in the order of [`DefFault`], is the fault.
pub fn read(alloc: Global, text: &[u8]) -> Result<ModelDef, DefFault>
    ensures ok { IfOk result (IsRead text.now) }
    ensures unbroken { OnOk result ((e : DefFault) → ¬ Breaks text.now e) }
    ensures refused { IfErr result (λ e. e ≢ fault.OutOfMemory → Breaks text.now e) }
{
    let mut part = DefPart::Model;
    read_to(alloc, text, &mut part)
}

/// The same; the fault, which is that of [`read`], has the part of the definition that breaks the rule.
pub fn read_placed(alloc: Global, text: &[u8]) -> Result<ModelDef, Placed<DefFault, DefPart>>
    ensures ok { IfOk result (IsRead text.now) }
    ensures unbroken { OnOk result ((e : DefFault) → ¬ Breaks text.now e) }
    ensures refused { IfErr result (λ p. p.fault ≢ fault.OutOfMemory → Breaks text.now p.fault) }
    ensures placed { IfErr result (λ p. p.fault ≢ fault.OutOfMemory → IsAtFault text.now p.part p.fault) }
{
    let mut part = DefPart::Model;
    match read_to(alloc, text, &mut part) {
        Ok(model) => Ok(model),
        Err(fault) => Err(Placed { fault, part }),
    }
}

/// Reads a definition, and notes the part that it has come to.
fn read_to(alloc: Global, text: &[u8], part: &mut DefPart) -> Result<ModelDef, DefFault>
    requires { part.old ≡ parts.Model }
    ensures ok { IfOk result (IsRead text.now) }
    ensures unbroken { OnOk result ((e : DefFault) → ¬ Breaks text.now e) }
    ensures refused { IfErr result (λ e. e ≢ fault.OutOfMemory → Breaks text.now e) }
    ensures placed { IfErr result (λ e. e ≢ fault.OutOfMemory → IsAtFault text.now part.new e) }
{
    match Value::from_slice(alloc, text) {
        Ok(tree) => read_tree(alloc, &tree, part),
        Err(e) => if e.is_memory() {
            Err(DefFault::OutOfMemory)
        } else {
            Err(DefFault::NotJson)
        },
    }
}

/// The same of a tree.
fn read_tree(alloc: Global, tree: &Value, part: &mut DefPart) -> Result<ModelDef, DefFault>
    requires { part.old ≡ parts.Model }
    ensures stands { IfOk result (StandsFor (view tree.now)) }
    ensures unbroken { OnOk result (first_broken (view tree.now) ≡ None) }
    ensures refused { IfErr result (λ e. e ≢ fault.OutOfMemory
        → first_broken (view tree.now) ≡ Some e) }
    ensures placed { IfErr result (λ e. e ≢ fault.OutOfMemory → IsTreeFault (view tree.now) part.new e) }
{
    let Some(outline) = outline_of(tree) else {
        return Err(DefFault::MissingKey);
    };
    let Some(id) = model_id(outline.id) else {
        return Err(DefFault::BadType);
    };
    if has_groups(outline.group) {
        return Err(DefFault::Repeating);
    }
    let points = read_points(alloc, outline.points, part)?;
    lay_out(alloc, id, &points, part)
}

/// The keys of a model, each of its JSON kind.
#[derive(Clone, Copy)]
struct Outline<'a> {
    id: i128,
    group: &'a Value,
    points: &'a Vec<Value>,
}

fn outline_of(tree: &Value) -> Option<Outline<'_>>
    ensures { option_map outline_view result ≡ outline_of (view tree.now) }
{
    let id = whole_number(tree.get("id")?)?;
    let group = tree.get("group")?;
    let points = group.get("points")?.as_array()?;
    Some(Outline { id, group, points })
}

/// The ID of a model: neither 0 nor 65535, which ends a map.
fn model_id(id: i128) -> Option<u16>
    ensures { MatchOption result (is_model_id id ≡ false)
        (λ n. (is_model_id id ≡ true) × (id ≡ pos n) × (1 ≤ n) × (n ≤ 65534)) }
{
    if 1 <= id && id <= 65534 {
        Some(id as u16)
    } else {
        None
    }
}

/// Whether the group has groups of its own, which repeat.
fn has_groups(group: &Value) -> bool
    ensures { result ≡ repeats (view group.now) }
{
    let Some(groups) = group.get("groups") else {
        return false;
    };
    match groups.as_array() {
        Some(list) => !list.as_slice().is_empty(),
        None => true,
    }
}

/// Reads the points' objects in order, up to the first that breaks a rule.
fn read_points<'a>(
    alloc: Global,
    trees: &'a Vec<Value>,
    part: &mut DefPart,
) -> Result<Descriptions<'a>, DefFault>
    ensures told { IfOk result
        (λ points. descriptions_view points.entries ≡ descriptions_of (items_view trees.now.items)) }
    ensures unbroken { IfOk result (λ _. broken_among [] (items_view trees.now.items) ≡ None) }
    ensures refused { IfErr result
        (λ e. e ≢ fault.OutOfMemory → broken_among [] (items_view trees.now.items) ≡ Some e) }
    ensures placed { IfErr result
        (λ e. e ≢ fault.OutOfMemory → IsPointRefused (items_view trees.now.items) part.new e) }
{
    let mut points = IndexMap::new(alloc);
    for tree in trees {
        *part = DefPart::Point(points.len());
        let (name, description) = read_point(tree)?;
        if points.insert(name, description)?.is_some() {
            return Err(DefFault::DuplicateName);
        }
    }
    Ok(points)
}
