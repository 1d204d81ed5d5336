//! A point of a model, and its name.
ghost use Rattle.std.specs.Prelude.{◌≡◌, ◌≢◌, ℕ, ℤ, ◌+◌, ◌≤◌, ◌≤ℤ◌, pos, neg_ℤ, List, [], string_bytes, IfOk};
ghost use Rattle.std.specs.List.{position};
ghost use Rattle.std.specs.Str.{bytes_eq};
ghost use Rattle.point_types.specs.Point.{size_of};
ghost use Rattle.point_types.specs.declared.kind.Kind.TheVariants as kinds;
ghost use Rattle.model_defs.specs.declared.point.Sf.TheVariants as factors;

use point_types::Kind;
use std::alloc::{AllocError, Global};
use std::marker::Model;

/// The name of a point: any text, in which case counts. Contracts see its bytes.
#[derive(Debug, Drop)]
pub struct PointName {
    text: String,
}

impl Model for PointName {
    ghost Value = { List ℕ };

    ghost view = { λ n. string_bytes n.text };
}

impl PointName {
    /// A copy of a text.
    pub(crate) fn new(alloc: Global, text: &str) -> Result<PointName, AllocError>
        ensures { IfOk result (λ n. n ≡ text.now) }
    {
        Ok(PointName {
            text: String::from_str(alloc, text)?,
        })
    }

    /// The name as a text.
    pub fn as_str(&self) -> &str
        ensures { result.now ≡ self.now }
    {
        self.text.as_str()
    }
}

impl Clone for PointName {
    ghost is_clone = { λ x y. y ≡ x };

    fn clone(&self) -> Result<PointName, AllocError> {
        Ok(PointName {
            text: self.text.clone()?,
        })
    }
}

/// What scales the raw number of a point (SunSpec Device Information Model Specification, scale factors).
#[derive(Clone, Copy, PartialEq, Eq, Debug)]
pub enum Sf {
    /// Nothing: the raw number is the value.
    None,
    /// A power of ten that the definition fixes, in -10..10.
    Fixed(i8),
    /// The power of ten in the point of kind sunssf with this number among the model's points.
    At(usize),
}

/// A point of a model: a number or a text in registers side by side.
#[derive(Debug, Drop)]
pub struct Point {
    pub name: PointName,
    pub kind: Kind,
    /// Registers.
    pub size: u16,
    /// Registers between the model's ID and the point's first register.
    pub offset: u16,
    pub sf: Sf,
    /// Whether clients may write it (access RW).
    pub writable: bool,
    ghost sized: { kind ≢ kinds.String → size ≡ size_of kind },
    ghost not_empty: { 1 ≤ size },
    ghost fixed_within: { (n : ℤ) → sf ≡ factors.Fixed n → (neg_ℤ (pos 10) ≤ℤ n) × (n ≤ℤ pos 10) },
}

/// The points of a model, in the order of their registers. Contracts see the list.
#[derive(Debug, Drop)]
pub struct Points {
    items: Vec<Point>,
}

impl Model for Points {
    ghost use Rattle.std.specs.Prelude.{List};
    ghost use Rattle.model_defs.specs.declared.point.Point.{Point};

    ghost Value = { List Point };

    ghost view = { λ p. p.items.items };
}

impl Clone for Point {
    ghost is_clone = { λ x y. y ≡ x };

    fn clone(&self) -> Result<Point, AllocError> {
        Ok(Point {
            name: self.name.clone()?,
            kind: self.kind,
            size: self.size,
            offset: self.offset,
            sf: self.sf,
            writable: self.writable,
        })
    }
}

impl Clone for Points {
    ghost is_clone = { λ x y. y ≡ x };

    fn clone(&self) -> Result<Points, AllocError> {
        Ok(Points {
            items: self.items.clone()?,
        })
    }
}

impl Points {
    /// The number of the first point of a name.
    pub(crate) fn find(&self, name: &str) -> Option<usize>
        ensures { result ≡ position (λ p. bytes_eq p.name name.now) self.now }
    {
        self.as_slice().iter().position(|p| p.name.as_str() == name)
    }

    pub(crate) fn new(items: Vec<Point>) -> Points
        ensures { result ≡ items.items }
    {
        Points { items }
    }

    /// The points, ID first.
    pub fn as_slice(&self) -> &[Point]
        ensures { result.now ≡ self.now }
    {
        self.items.as_slice()
    }
}
