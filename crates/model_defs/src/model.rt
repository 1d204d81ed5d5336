//! A model: its ID, its length and its points.
ghost use Rattle.std.specs.Prelude.{◌≡◌, ◌+◌, ◌≤◌, Some, IfSome, option_map, slice_get};
ghost use Rattle.std.specs.List.{position};
ghost use Rattle.std.specs.Str.{bytes_eq};
ghost use Rattle.model_defs.specs.Layout.{registers_of, IsInOrder, HasItsFactors, HasDistinctNames, HasHeader};

use crate::point::Points;
use std::alloc::AllocError;

/// The definition of a model: what its registers mean, from the model's ID on (SunSpec Device Information
/// Model Specification, models and points). Each one is laid out: the points begin at 0 with ID and L,
/// follow one another without a gap, have names of their own, and a factor by number is a point of kind sunssf.
#[derive(Debug, Drop)]
pub struct ModelDef {
    /// The model's ID, in 1..65534.
    pub id: u16,
    /// The registers after ID and L, at most 123.
    pub length: u16,
    /// The points, ID and L first.
    pub points: Points,
    ghost is_model: { (1 ≤ id) × (id ≤ 65534) },
    ghost is_short: { length ≤ 123 },
    ghost is_whole: { registers_of points ≡ length + 2 },
    ghost in_order: { IsInOrder points },
    ghost has_factors: { HasItsFactors points },
    ghost distinct: { HasDistinctNames points },
    ghost has_header: { HasHeader points },
}

impl ModelDef {
    /// The number of the point of a name, which is its place in `points`.
    pub fn find(&self, name: &str) -> Option<usize>
        ensures place { result ≡ position (λ p. bytes_eq p.name name.now) self.now.points }
        ensures named { IfSome result
            (λ i. option_map (λ p. p.name) (slice_get self.now.points i) ≡ Some name.now) }
    {
        self.points.find(name)
    }
}

impl Clone for ModelDef {
    ghost is_clone = { λ x y. y ≡ x };

    fn clone(&self) -> Result<ModelDef, AllocError> {
        Ok(ModelDef {
            id: self.id,
            length: self.length,
            points: self.points.clone()?,
        })
    }
}
