//! The names that a program has declared so far.
ghost use Rattle.std.specs.Prelude.{◌≡◌, OnOk};
ghost use Rattle.std.specs.List.{list_any};
ghost use Rattle.il_reader.specs.Declaration.{among, empty_scope, has_presence_among, has_room, is_among_presences, is_presence, is_taken, with_name};

use point_types::{Items, Name};
use std::alloc::{AllocError, Global};

/// The most variables of a program, and the most externals.
const MOST_NAMES: usize = 1024;

/// The names that are declared.
#[derive(Drop)]
pub struct Scope {
    pub variables: Items<Name>,
    pub externals: Items<Name>,
}

impl Scope {
    /// No names.
    pub fn new(alloc: Global) -> Scope
        ensures { result ≡ empty_scope }
    {
        Scope {
            variables: Items::new(alloc),
            externals: Items::new(alloc),
        }
    }

    /// Whether one more variable, or external, may be declared.
    pub(crate) fn has_room(&self, external: bool) -> bool
        ensures { result ≡ has_room external self.now }
    {
        if external {
            self.variables.len() <= MOST_NAMES && self.externals.len() < MOST_NAMES
        } else {
            self.variables.len() < MOST_NAMES && self.externals.len() <= MOST_NAMES
        }
    }

    /// Whether the name is declared, or is at odds with the name of an external's presence.
    pub(crate) fn is_taken(&self, external: bool, name: &Name) -> bool
        ensures { result ≡ is_taken external name.now self.now }
    {
        let name = name.as_bytes();
        let variables = self.variables.as_slice();
        let externals = self.externals.as_slice();
        is_listed(name, variables)
            || is_listed(name, externals)
            || is_some_presence(name, externals)
            || (external && (has_presence(name, variables) || has_presence(name, externals)))
    }

    /// One more name.
    pub(crate) fn declare(&mut self, external: bool, name: Name) -> Result<(), AllocError>
        ensures ok { OnOk result (self.new ≡ with_name external self.old name) }
    {
        if external {
            self.externals.push(name)?;
        } else {
            self.variables.push(name)?;
        }
        Ok(())
    }
}

/// Whether the name is one of the list.
pub(crate) fn is_listed(name: &[u8], names: &[Name]) -> bool
    ensures { result ≡ among name.now names.now }
{
    names.iter().any(|other| name == other.as_bytes())
}

// Whether the name is that of the presence of one of the list.
fn is_some_presence(name: &[u8], names: &[Name]) -> bool
    ensures { result ≡ is_among_presences name.now names.now }
{
    names
        .iter()
        .any(|other| names_presence(name, other.as_bytes()))
}

// Whether one of the list is the name of this name's presence.
fn has_presence(name: &[u8], names: &[Name]) -> bool
    ensures { result ≡ has_presence_among name.now names.now }
{
    names
        .iter()
        .any(|other| names_presence(other.as_bytes(), name))
}

// Whether the first name is the second with `_ok` after it.
fn names_presence(presence: &[u8], name: &[u8]) -> bool
    ensures { result ≡ is_presence presence.now name.now }
{
    let mut presence = presence;
    let mut rest = name;
    while let [letter, after @ ..] = rest {
        match presence {
            [first, behind @ ..] if letter == first => presence = behind,
            _ => return false,
        }
        rest = after;
    }
    presence == b"_ok".as_slice()
}
