//! The places of names in tables, looked up in one step.
#![tactic(auto)]

ghost use Rattle.std.specs.Prelude.{◌≡◌, OnOk};
ghost use Rattle.name_places.specs.Places.{Notes, place_in};

use indexmap::IndexMap;
use std::alloc::AllocError;

/// The place of the first entry of each name.
pub type Places<'a> = IndexMap<&'a str, usize>;

/// Notes the place of a name, where none is noted yet.
pub fn note<'a>(places: &mut Places<'a>, name: &'a str, place: usize) -> Result<(), AllocError>
    ensures { OnOk result (Notes places.old.entries name.now place places.new.entries) }
{
    if places.get(name).is_none() {
        places.insert(name, place)?;
    }
    Ok(())
}

/// The place that is noted for a name.
pub fn place_of(places: &Places<'_>, name: &str) -> Option<usize>
    ensures { result ≡ place_in places.now.entries name.now }
{
    places.get(name).copied()
}
