//! A tag: a point of a device by the name that programs use.
ghost use Rattle.std.specs.Prelude.{◌≢◌, IsTrue};
ghost use Rattle.point_types.specs.Reading.{IsExponent};
ghost use Rattle.point_types.specs.Value.{is_ranged};
ghost use Rattle.point_types.specs.declared.kind.Kind.TheVariants as kinds;
ghost use Rattle.site_model.specs.Tag.{may_write, start_of};

use crate::access::Access;
use crate::fit::Fit;
use point_types::{IlType, Kind, Name};

/// What scales the raw number of a tag's point (SunSpec Device Information Model Specification, scale factors).
#[derive(Clone, Copy, PartialEq, Eq, Debug)]
pub enum Sf {
    /// Nothing: the raw number is the value.
    None,
    /// A power of ten that the definition fixes, in -10..10.
    Fixed(i8),
    /// The power of ten in the register at this offset from the model's ID.
    At(u16),
}

/// A tag: a name for a point of a device or of the gateway, with the numbers that it may have.
#[derive(Clone, Copy, PartialEq, Eq, Debug)]
pub struct SiteTag {
    pub name: Name,
    pub access: Access,
    /// The type that programs see; BOOL counts FALSE as 0, TRUE as 1.
    pub kind: IlType,
    /// The least number of the tag.
    pub low: i64,
    /// The greatest number of the tag.
    pub high: i64,
    /// What an input is worth while its point has no value.
    pub default: Option<i64>,
    /// The value is a whole number of this power of ten, in -10..10.
    pub exponent: i8,
    /// The bit of a bitfield that the tag is; bit 0 is the least.
    pub bit: Option<u8>,
    /// Whether a value between two whole numbers is rounded down.
    pub down: bool,
    /// Seconds, in 1..86,400, after which what a client set lapses where it isn't written again; None: never.
    pub lapse: Option<u32>,
    /// What is written where its point can't say what the program stored.
    pub fit: Fit,
    /// The name of the `out` tag of the same device without which this one isn't written.
    pub companion: Option<Name>,
    /// The number of its device; None for the gateway's own points.
    pub device: Option<usize>,
    /// The ID of its model.
    pub model: u16,
    /// The kind of its point.
    pub point: Kind,
    /// Whether its point can be written, by the model's definition.
    pub writable: bool,
    /// Registers between the model's ID and the point's first register.
    pub offset: u16,
    pub sf: Sf,
    ghost ranged: { IsTrue (is_ranged kind low high (start_of low default)) },
    ghost scaled: { IsExponent exponent },
    ghost numeric: { point ≢ kinds.String },
    ghost meant: { point ≢ kinds.Pad },
    ghost writes: { IsTrue (may_write access writable) },
}
