//! The registers of a device before its points have values, and what each belongs to.
ghost use Rattle.std.specs.Prelude.{◌≡◌, ◌++◌, ◌∷◌, [], ◌≤◌, ◌<◌, ◌^◌, ◌+◌, ℕ, length, map, IfOk, OnOk, true, false};
ghost use Rattle.std.specs.List.{flat_map};
ghost use Rattle.inverter_sim.specs.Image.{first, behind, unimplemented, padded, blank_words, stored, with_model, with_models, image_of, places_from, places_of_point, places_of_model, places_of};
ghost use Rattle.inverter_sim.specs.Reading.{models_view};

use crate::place::RegisterPlace;
use crate::tick::set_at;
use model_defs::ModelDef;
use point_types::Kind;
use std::alloc::{AllocError, Global};

/// The registers of the mark, these models and the end model; points have no value but ID and L.
pub(super) fn image_of(alloc: Global, models: &[&ModelDef]) -> Result<Vec<u16>, AllocError>
    ensures { IfOk result (λ v. v.items ≡ image_of (models_view models.now)) }
{
    let mut registers = Vec::new(alloc);
    registers.extend_from_slice(&[0x5375, 0x6E53])?;
    for model in models {
        push_model(&mut registers, model)?;
    }
    registers.extend_from_slice(&[0xFFFF, 0])?;
    Ok(registers)
}

fn push_model(registers: &mut Vec<u16>, model: &ModelDef) -> Result<(), AllocError>
    ensures { OnOk result (registers.new.items ≡ with_model registers.old.items model.now) }
{
    let at = registers.len();
    for point in model.points.as_slice() {
        push_blank(registers, point.size, unimplemented(point.kind))?;
    }
    store(registers, at, &[model.id, model.length]);
    Ok(())
}

/// A point without a value.
fn push_blank(registers: &mut Vec<u16>, size: u16, words: &[u16]) -> Result<(), AllocError>
    ensures { OnOk result (registers.new.items ≡ registers.old.items ++ padded size words.now) }
{
    let mut rest = words;
    let mut left = size;
    while left > 0 {
        registers.push(first(rest))?;
        rest = behind(rest);
        left -= 1;
    }
    Ok(())
}

fn first(words: &[u16]) -> u16
    ensures { result ≡ first words.now }
{
    match words {
        [word, ..] => *word,
        [] => 0,
    }
}

fn behind(words: &[u16]) -> &[u16]
    ensures { result.now ≡ behind words.now }
{
    match words {
        [_, rest @ ..] => rest,
        [] => words,
    }
}

/// Writes words from this register on.
pub(super) fn store(registers: &mut Vec<u16>, at: usize, words: &[u16])
    requires { at + length words.now < 2 ^ 64 }
    ensures stored { registers.new.items ≡ stored at words.now registers.old.items }
    ensures len { length registers.new.items ≡ length registers.old.items }
{
    let mut at = at;
    for word in words {
        set_at(registers, Some(at), *word);
        at += 1;
    }
}

/// The unimplemented words of a kind (SunSpec Device Information Model Specification, the table of types).
fn unimplemented(kind: Kind) -> &'static [u16]
    ensures { result.now ≡ unimplemented kind }
{
    match kind {
        Kind::Int16 => &[0x8000],
        Kind::Uint16 => &[0xFFFF],
        Kind::Acc16 => &[0],
        Kind::Enum16 => &[0xFFFF],
        Kind::Bitfield16 => &[0xFFFF],
        Kind::Sunssf => &[0x8000],
        Kind::Pad => &[0x8000],
        Kind::Int32 => &[0x8000, 0],
        Kind::Uint32 => &[0xFFFF, 0xFFFF],
        Kind::Enum32 => &[0xFFFF, 0xFFFF],
        Kind::Bitfield32 => &[0xFFFF, 0xFFFF],
        Kind::Acc32 => &[0, 0],
        Kind::Int64 => &[0x8000, 0, 0, 0],
        Kind::Uint64 => &[0xFFFF, 0xFFFF, 0xFFFF, 0xFFFF],
        Kind::Acc64 => &[0, 0, 0, 0],
        Kind::String => &[],
    }
}

/// What each of these registers belongs to.
pub(super) fn places_of(
    alloc: Global,
    models: &[&ModelDef],
) -> Result<Vec<RegisterPlace>, AllocError>
    ensures { IfOk result (λ v. v.items ≡ places_of (models_view models.now)) }
{
    let mut places = Vec::new(alloc);
    push_places(&mut places, false, 2)?;
    for model in models {
        push_places_of(&mut places, model)?;
    }
    push_places(&mut places, false, 2)?;
    Ok(places)
}

fn push_places_of(places: &mut Vec<RegisterPlace>, model: &ModelDef) -> Result<(), AllocError>
    ensures { OnOk result (places.new.items ≡ places.old.items ++ places_of_model model.now) }
{
    for point in model.points.as_slice() {
        push_places(places, point.writable, point.size)?;
    }
    Ok(())
}

/// The places of a point's registers.
fn push_places(places: &mut Vec<RegisterPlace>, writable: bool, size: u16) -> Result<(), AllocError>
    ensures { OnOk result (places.new.items ≡ places.old.items ++ places_from writable 0 size) }
{
    for before in 0..size {
        places.push(RegisterPlace {
            writable,
            before,
            behind: size - 1 - before,
        })?;
    }
    Ok(())
}
