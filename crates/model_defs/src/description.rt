//! A point by itself, as its definition tells it: all but its place and its factor's.
ghost use Rattle.std.specs.Prelude.{◌≡◌, true};
ghost use Rattle.model_defs.specs.Definition.{is_size};

use indexmap::IndexMap;
use point_types::Kind;

/// What scales a point, as its definition tells it.
#[derive(Clone, Copy)]
pub(crate) enum Factor<'a> {
    Unscaled,
    Fixed(i128),
    Named(&'a str),
}

/// A point of a kind, without its name.
#[derive(Clone, Copy)]
pub(crate) struct Description<'a> {
    pub(crate) kind: Kind,
    /// Registers.
    pub(crate) size: u128,
    pub(crate) factor: Factor<'a>,
    pub(crate) writable: bool,
    ghost sized: { is_size kind size ≡ true },
}

/// The points of a model by name, in order.
pub(crate) type Descriptions<'a> = IndexMap<&'a str, Description<'a>>;
