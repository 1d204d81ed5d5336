//! What a name of a program stands for, presences among them.
ghost use Rattle.std.specs.Prelude.{◌≡◌, position};
ghost use Rattle.il_assemble.specs.Kept.{seen};
ghost use Rattle.il_assemble.specs.Names.{is_called, is_external, is_presence_of, known_as, known_type, named_type};

use crate::scope::Scope;
use il_reader::External;
use name_places::place_of;
use point_types::{IlType, Name};

/// What a name stands for: the variable at a place, the external at a place, or whether that external has
/// a value of its own.
#[derive(Clone, Copy)]
pub(crate) enum Known {
    Variable(usize),
    External(usize),
    Presence(usize),
}

/// What stands after the name of a presence's external.
const PRESENCE: &[u8] = b"_ok";

/// Whether a name is an external's with the ending of a presence.
fn is_presence_of(name: &Name, external: &External) -> bool
    ensures { result ≡ is_presence_of name.now external.now }
{
    match name.as_bytes().strip_prefix(external.name.as_bytes()) {
        Some(ending) => ending == PRESENCE,
        None => false,
    }
}

fn variable_place(scope: Scope<'_, '_, '_>, name: &Name) -> Option<usize>
    ensures { result ≡ position (is_called name.now) scope.entry.variables.now }
{
    place_of(&scope.tables.variables, name.as_str())
}

fn external_place(scope: Scope<'_, '_, '_>, name: &Name) -> Option<usize>
    ensures { result ≡ position (is_external name.now) scope.entry.externals.now }
{
    place_of(&scope.tables.externals, name.as_str())
}

fn presence_place(externals: &[External], name: &Name) -> Option<usize>
    ensures { result ≡ position (is_presence_of name.now) externals.now }
{
    externals
        .iter()
        .position(|external| is_presence_of(name, external))
}

/// What a name stands for.
pub(crate) fn known_as(scope: Scope<'_, '_, '_>, name: &Name) -> Option<Known>
    ensures { result ≡ known_as (seen scope.entry) name.now }
{
    if let Some(place) = variable_place(scope, name) {
        return Some(Known::Variable(place));
    }
    if let Some(place) = external_place(scope, name) {
        return Some(Known::External(place));
    }
    match presence_place(scope.externals, name) {
        Some(place) => Some(Known::Presence(place)),
        None => None,
    }
}

/// The type of a known name.
pub(crate) fn named_type(scope: Scope<'_, '_, '_>, name: &Name) -> Option<IlType>
    ensures { result ≡ named_type (seen scope.entry) name.now }
{
    match known_as(scope, name)? {
        Known::Variable(place) => scope.variables.get(place).map(|variable| variable.var.kind),
        Known::External(place) => scope.externals.get(place).map(|external| external.kind),
        Known::Presence(_) => Some(IlType::Bool),
    }
}
