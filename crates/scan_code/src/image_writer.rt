//! From an image to bytes.
ghost use Rattle.std.specs.Prelude.{◌≡◌, ◌++◌, ◌<◌, OnOk};
ghost use Rattle.scan_code.specs.Spelling.{place_bytes};
ghost use Rattle.scan_code.specs.ImageSpelling.{spelled_name, spelled_number, spelled_range, spelled_tag, spelled_tags, spelled_var, spelled_vars};

use crate::image::Tag;
use crate::spelling::number_of;
use point_types::{Name, Var};
use std::alloc::AllocError;

/// Appends a number of two bytes.
pub(crate) fn append_size(bytes: &mut Vec<u8>, size: usize) -> Result<(), AllocError>
    requires { size < 65536 }
    ensures { OnOk result (bytes.new.items ≡ bytes.old.items ++ place_bytes size) }
{
    bytes.extend_from_slice(&(size as u16).to_be_bytes())
}

/// Appends the variables of an image.
pub(crate) fn append_vars(bytes: &mut Vec<u8>, vars: &[Var]) -> Result<(), AllocError>
    ensures { OnOk result (bytes.new.items ≡ bytes.old.items ++ spelled_vars vars.now) }
{
    let mut rest = vars;
    while let [var, after @ ..] = rest {
        append_var(bytes, var)?;
        rest = after;
    }
    Ok(())
}

/// Appends the tags of an image.
pub(crate) fn append_tags(bytes: &mut Vec<u8>, tags: &[Tag]) -> Result<(), AllocError>
    ensures { OnOk result (bytes.new.items ≡ bytes.old.items ++ spelled_tags tags.now) }
{
    let mut rest = tags;
    while let [tag, after @ ..] = rest {
        append_tag(bytes, tag)?;
        rest = after;
    }
    Ok(())
}

fn append_var(bytes: &mut Vec<u8>, var: &Var) -> Result<(), AllocError>
    ensures { OnOk result (bytes.new.items ≡ bytes.old.items ++ spelled_var var.now) }
{
    append_name(bytes, &var.name)?;
    append_range(bytes, var)
}

/// Appends a variable's type, low, high and start.
fn append_range(bytes: &mut Vec<u8>, var: &Var) -> Result<(), AllocError>
    ensures { OnOk result (bytes.new.items ≡ bytes.old.items ++ spelled_range var.now) }
{
    bytes.push(number_of(var.kind))?;
    append_number(bytes, var.low)?;
    append_number(bytes, var.high)?;
    append_number(bytes, var.start)?;
    Ok(())
}

fn append_tag(bytes: &mut Vec<u8>, tag: &Tag) -> Result<(), AllocError>
    ensures { OnOk result (bytes.new.items ≡ bytes.old.items ++ spelled_tag tag.now) }
{
    append_name(bytes, &tag.name)?;
    bytes.extend_from_slice(&[tag.output as u8, number_of(tag.kind)])
}

fn append_name(bytes: &mut Vec<u8>, name: &Name) -> Result<(), AllocError>
    ensures { OnOk result (bytes.new.items ≡ bytes.old.items ++ spelled_name name.now) }
{
    let name = name.as_bytes();
    bytes.push(name.len() as u8)?;
    bytes.extend_from_slice(name)
}

/// Appends a number in two's complement.
fn append_number(bytes: &mut Vec<u8>, n: i64) -> Result<(), AllocError>
    ensures { OnOk result (bytes.new.items ≡ bytes.old.items ++ spelled_number n) }
{
    let [a, b, c, d, e, f, g, h] = n.to_be_bytes();
    bytes.extend_from_slice(&[a, b, c, d, e, f, g, h])
}
