//! Images of programs that are tables.

ghost use Rattle.std.specs.Prelude.{◌≡◌};
ghost use Rattle.point_types.specs.Value.{is_ranged, is_within};

use crate::worked::programs::{DeclaredTag, DeclaredVariable, Program};
use point_types::{IlType, Items, Name, Var};
use scan_code::{Image, Tag};
use std::alloc::Global;

/// Whether a range lies in its type, and the start in the range.
fn is_ranged(kind: IlType, low: i64, high: i64, start: i64) -> bool
    ensures { result ≡ is_ranged kind low high start }
{
    kind.low() <= low && is_within(low, high, start) && high <= kind.high()
}

fn is_within(low: i64, high: i64, number: i64) -> bool
    ensures { result ≡ is_within low high number }
{
    low <= number && number <= high
}

/// A variable; None where its range isn't one of its type, or the start lies outside.
pub fn variable(name: Name, kind: IlType, low: i64, high: i64, start: i64) -> Option<Var> {
    if is_ranged(kind, low, high, start) {
        Some(Var {
            name,
            kind,
            low,
            high,
            start,
        })
    } else {
        None
    }
}

/// A variable of a table, which starts with this number, or else at the low end of its range.
fn declared(row: &DeclaredVariable, start: Option<i64>) -> Option<Var> {
    let (name, kind, low, high) = *row;
    let start = start.unwrap_or(low);
    variable(Name::from_bytes(name.as_bytes())?, kind, low, high, start)
}

/// The variables of a table, of which the first ones start with these numbers, the others at the low ends of their
/// ranges; None where one is none, or no memory is left.
pub fn variables(alloc: Global, rows: &[DeclaredVariable], starts: &[i64]) -> Option<Items<Var>> {
    let mut vars = Items::new(alloc);
    add_variables(&mut vars, rows, starts)?;
    Some(vars)
}

fn add_variables(vars: &mut Items<Var>, rows: &[DeclaredVariable], starts: &[i64]) -> Option<()> {
    for row in rows {
        let start = starts.get(vars.len()).copied();
        vars.push(declared(row, start)?).ok()?;
    }
    Some(())
}

fn tag(row: &DeclaredTag) -> Option<Tag> {
    let (name, output, kind) = *row;
    Some(Tag {
        name: Name::from_bytes(name.as_bytes())?,
        output,
        kind,
    })
}

/// The tags of a table; None where a name is none, or no memory is left.
pub fn tags(alloc: Global, rows: &[DeclaredTag]) -> Option<Items<Tag>> {
    let mut tags = Items::new(alloc);
    add_tags(&mut tags, rows)?;
    Some(tags)
}

fn add_tags(tags: &mut Items<Tag>, rows: &[DeclaredTag]) -> Option<()> {
    for row in rows {
        tags.push(tag(row)?).ok()?;
    }
    Some(())
}

/// The bytes of a program's code; None where no memory is left.
pub fn code(alloc: Global, bytes: &[u8]) -> Option<Items<u8>> {
    Some(Items::from_vec(Vec::from_slice(alloc, bytes).ok()?))
}

/// The image of a program in this version, whose first variables start with these numbers, the others at the low ends
/// of their ranges; None where it is none, or no memory is left.
pub fn image(alloc: Global, version: u8, program: &Program, starts: &[i64]) -> Option<Image> {
    let vars = variables(alloc, program.vars, starts)?;
    let tags = tags(alloc, program.tags)?;
    let code = code(alloc, program.code)?;
    Image::new(version, vars, tags, code)
}

/// The image of code alone, without variables and tags; None where it is none.
pub fn image_of_code(alloc: Global, version: u8, code: Vec<u8>) -> Option<Image> {
    Image::new(
        version,
        Items::new(alloc),
        Items::new(alloc),
        Items::from_vec(code),
    )
}
