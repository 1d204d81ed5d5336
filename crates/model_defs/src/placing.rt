//! The points of a model together: looked at as a whole, and laid out in registers.
ghost use Rattle.std.specs.Prelude.{◌≡◌, ◌≢◌, ◌≤◌, ◌<◌, ◌≤ℤ◌, ℕ, ℤ, pos, neg_ℤ, Some, None, true, false, option_map, slice_get, IfOk, IfErr, IfSome, OnOk, MatchOption};
ghost use Rattle.model_defs.specs.Definition.{is_heading, all_registers, is_factor, has_all_factors, broken_whole, factor_told, ArePoints, HasFactorsAmong};
ghost use Rattle.model_defs.specs.Layout.{IsInOrder, HasDistinctNames};
ghost use Rattle.model_defs.specs.Descriptions.{factor_view, descriptions_view};
ghost use Rattle.model_defs.specs.Parts.{AreRefused, IsUnscaled};
ghost use Rattle.model_defs.specs.declared.point.Sf.TheVariants as factors;
ghost use Rattle.model_defs.specs.declared.fault.DefFault.TheVariants as fault;
ghost use Rattle.point_types.specs.declared.kind.Kind.TheVariants as kinds;

use crate::description::{Descriptions, Factor};
use crate::fault::DefFault;
use crate::model::ModelDef;
use crate::part::DefPart;
use crate::point::{Point, PointName, Points, Sf};
use point_types::Kind;
use std::alloc::Global;

/// Lays the points out as a model of that id, where they break no rule together; notes the part that it has come to.
pub(crate) fn lay_out(
    alloc: Global,
    id: u16,
    points: &Descriptions<'_>,
    part: &mut DefPart,
) -> Result<ModelDef, DefFault>
    requires { (1 ≤ id) × (id ≤ 65534) }
    ensures id { IfOk result (λ model. model.id ≡ id) }
    ensures told { IfOk result
        (λ model. ArePoints (descriptions_view points.now.entries) model.points) }
    ensures unbroken { OnOk result (broken_whole (descriptions_view points.now.entries) ≡ None) }
    ensures refused { IfErr result (λ e. e ≢ fault.OutOfMemory
        → broken_whole (descriptions_view points.now.entries) ≡ Some e) }
    ensures placed { IfErr result (λ e. e ≢ fault.OutOfMemory
        → AreRefused (descriptions_view points.now.entries) part.new e) }
{
    *part = DefPart::Model;
    if !is_headed(points, 0, "ID") || !is_headed(points, 1, "L") {
        return Err(DefFault::BadHeader);
    }
    let Some(registers) = total(points) else {
        return Err(DefFault::TooLong);
    };
    let placed = place(alloc, points, part)?;
    Ok(ModelDef {
        id,
        length: registers - 2,
        points: placed,
    })
}

/// Whether the point of that number has that name and is a uint16.
fn is_headed(points: &Descriptions<'_>, number: usize, name: &str) -> bool
    ensures { result ≡ is_heading (descriptions_view points.now.entries) number name.now }
{
    match points.get_index(number) {
        Some((found, description)) => name == *found && description.kind == Kind::Uint16,
        None => false,
    }
}

/// The most registers of a model, with ID and L.
const MOST_REGISTERS: u16 = 125;

/// The registers of all points, where a model has room for them.
fn total(points: &Descriptions<'_>) -> Option<u16>
    ensures { MatchOption result (125 < all_registers (descriptions_view points.now.entries))
        (λ n. (n ≡ all_registers (descriptions_view points.now.entries)) × (n ≤ 125)) }
{
    let mut total: u16 = 0;
    for description in points.values() {
        if description.size > (MOST_REGISTERS - total) as u128 {
            return None;
        }
        total += description.size as u16;
    }
    Some(total)
}

/// The factor of a point, where it is one in -10..10 or names a point of kind sunssf.
fn place_factor(points: &Descriptions<'_>, factor: Factor<'_>) -> Option<Sf>
    ensures found { MatchOption result
        (is_factor (descriptions_view points.now.entries) (factor_view factor.entry) ≡ false)
        (λ _. is_factor (descriptions_view points.now.entries) (factor_view factor.entry) ≡ true) }
    ensures told { IfSome result
        (λ sf. factor_told (descriptions_view points.now.entries) sf ≡ factor_view factor.entry) }
    ensures within { IfSome result
        (λ sf. (n : ℤ) → sf ≡ factors.Fixed n → (neg_ℤ (pos 10) ≤ℤ n) × (n ≤ℤ pos 10)) }
    ensures among { IfSome result
        (λ sf. (j : ℕ) → sf ≡ factors.At j
        → option_map (λ d. d.kind) (slice_get (descriptions_view points.now.entries) j)
        ≡ Some kinds.Sunssf) }
{
    match factor {
        Factor::Unscaled => Some(Sf::None),
        Factor::Fixed(n) => if -10 <= n && n <= 10 {
            Some(Sf::Fixed(n as i8))
        } else {
            None
        },
        Factor::Named(name) => {
            let (number, _, description) = points.get_full(name)?;
            if description.kind == Kind::Sunssf {
                Some(Sf::At(number))
            } else {
                None
            }
        }
    }
}

/// Lays the points out, the first one at the model's ID, and notes the number of the one that it has come to.
fn place(alloc: Global, points: &Descriptions<'_>, part: &mut DefPart) -> Result<Points, DefFault>
    requires { all_registers (descriptions_view points.now.entries) ≤ 125 }
    ensures told { IfOk result (ArePoints (descriptions_view points.now.entries)) }
    ensures in_order { IfOk result IsInOrder }
    ensures among { IfOk result (HasFactorsAmong (descriptions_view points.now.entries)) }
    ensures distinct { IfOk result HasDistinctNames }
    ensures scaled { OnOk result
        (has_all_factors (descriptions_view points.now.entries) (descriptions_view points.now.entries) ≡ true) }
    ensures refused { IfErr result (λ e. e ≢ fault.OutOfMemory → (e ≡ fault.BadScalePoint)
        × (has_all_factors (descriptions_view points.now.entries) (descriptions_view points.now.entries) ≡ false)) }
    ensures placed { IfErr result (λ e. e ≢ fault.OutOfMemory
        → IsUnscaled (descriptions_view points.now.entries) part.new) }
{
    let mut placed = Vec::new(alloc);
    let mut offset: u16 = 0;
    for (name, description) in points.iter() {
        *part = DefPart::Point(placed.len());
        let Some(sf) = place_factor(points, description.factor) else {
            return Err(DefFault::BadScalePoint);
        };
        let size = description.size as u16;
        placed.push(Point {
            name: PointName::new(alloc, *name)?,
            kind: description.kind,
            size,
            offset,
            sf,
            writable: description.writable,
        })?;
        offset += size;
    }
    Ok(Points::new(placed))
}
