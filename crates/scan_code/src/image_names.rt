//! Names in an image, of which none stands twice.
ghost use Rattle.std.specs.Prelude.{◌≡◌, [], Some, None, if◌then◌else◌};
ghost use Rattle.std.specs.List.{list_any};
ghost use Rattle.std.specs.Str.{bytes_eq};
ghost use Rattle.point_types.specs.Name.{is_name};
ghost use Rattle.scan_code.specs.Image.{are_new, is_among, is_new, names_of};

use crate::image::Tag;
use point_types::{Name, Var};

/// Whether no two of the variables and tags of an image have one name.
pub fn have_names_of_their_own(vars: &[Var], tags: &[Tag]) -> bool
    ensures { result ≡ are_new [] (names_of vars.now tags.now) }
{
    have_variables_names(vars) && have_tags_names(vars, tags)
}

fn have_variables_names(vars: &[Var]) -> bool
    ensures { result ≡ are_new [] (names_of vars.now []) }
{
    for (i, var) in vars.iter().enumerate() {
        if is_taken(&vars[..i], &[], var.name.as_bytes()) {
            return false;
        }
    }
    true
}

fn have_tags_names(vars: &[Var], tags: &[Tag]) -> bool
    ensures { result ≡ are_new (names_of vars.now []) (names_of [] tags.now) }
{
    for (i, tag) in tags.iter().enumerate() {
        if is_taken(vars, &tags[..i], tag.name.as_bytes()) {
            return false;
        }
    }
    true
}

/// The name that the bytes are, in lower case, where none of these variables and tags has it.
pub(crate) fn new_name(vars: &[Var], tags: &[Tag], bytes: &[u8]) -> Option<Name>
    ensures { result ≡ (if is_new (names_of vars.now tags.now) bytes.now then Some bytes.now else None) }
{
    let name = name_in_lower_case(bytes)?;
    if is_taken(vars, tags, bytes) {
        None
    } else {
        Some(name)
    }
}

/// The name that the bytes are, where they have no letter in upper case.
fn name_in_lower_case(bytes: &[u8]) -> Option<Name>
    ensures { result ≡ (if is_name bytes.now then Some bytes.now else None) }
{
    let name = Name::from_bytes(bytes)?;
    if name.as_bytes() == bytes {
        Some(name)
    } else {
        None
    }
}

/// Whether one of the variables and tags has the name.
fn is_taken(vars: &[Var], tags: &[Tag], name: &[u8]) -> bool
    ensures { result ≡ is_among (names_of vars.now tags.now) name.now }
{
    is_variable(vars, name) || is_tag(tags, name)
}

fn is_variable(vars: &[Var], name: &[u8]) -> bool
    ensures { result ≡ list_any (λ v. bytes_eq name.now v.name) vars.now }
{
    vars.iter().any(|var| name == var.name.as_bytes())
}

fn is_tag(tags: &[Tag], name: &[u8]) -> bool
    ensures { result ≡ list_any (λ t. bytes_eq name.now t.name) tags.now }
{
    tags.iter().any(|tag| name == tag.name.as_bytes())
}
