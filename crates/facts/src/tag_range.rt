//! What a site says of one of a program's tags.

use point_types::IlType;
use std::marker::Model;

/// Whether programs store such a tag, its type, the range of its numbers, and whether it has a default
/// where it has no value. `low` is not over `high`.
#[derive(Drop)]
pub struct TagRange {
    pub output: bool,
    pub kind: IlType,
    pub low: i64,
    pub high: i64,
    pub has_default: bool,
}

impl Model for TagRange {
    ghost use Rattle.std.specs.Prelude.{◌≤ℤ◌};
    ghost use Rattle.facts.specs.Flow.{TagRange as Said};

    ghost Value = { Said };

    ghost view = { λ t. record { output = t.output; kind = t.kind; low = t.low; high = t.high; has_default = t.has_default } };

    ghost invariant = { λ t. t.low ≤ℤ t.high };
}
