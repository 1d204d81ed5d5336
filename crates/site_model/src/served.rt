//! What the gateway's own points are served with.
use crate::text::Text;
use point_types::Items;

/// What a point of the gateway's own models is served with.
#[derive(Debug, Drop)]
pub enum Source {
    /// A raw number of the point's kind.
    Raw(i64),
    /// A text, at most as long as its point's registers.
    Text(Text),
    /// The total of the readings of input tags with one exponent, by their numbers; at least one.
    Sum(Items<usize>),
    /// The total of those of these tags' readings that have a value of their own; the tags are as those of a sum.
    PartialSum(Items<usize>),
}

/// A point of the gateway's own models that the site file gives a value.
#[derive(Debug, Drop)]
pub struct Served {
    /// The ID of its model.
    pub model: u16,
    /// Its number among the points of the model's definition.
    pub point: usize,
    pub source: Source,
}
