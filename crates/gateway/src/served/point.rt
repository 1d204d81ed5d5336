//! The points of the gateway's own map, and where their numbers come from.
use point_types::Kind;

/// Where the number of a point of the gateway's own models comes from.
#[derive(Clone, Copy)]
pub enum PointSource {
    /// From nowhere: it is unimplemented.
    Nothing,
    /// The served entry of this number.
    Entry(usize),
    /// The `set` or `site` tag of this number.
    Tag(usize),
}

/// A point of the gateway's own map (SunSpec Device Information Model Specification, models and points).
#[derive(Clone, Copy)]
pub enum OwnPoint {
    /// One register whose word never changes: of the mark, a model's ID or length, or the end model.
    Word(u16),
    /// A string, and the served entry that gives its text.
    Text {
        size: u16,
        entry: Option<usize>,
    },
    /// A number, and the scale factor by which it is served: None where it is absent or outside -10..10.
    Number {
        kind: Kind,
        factor: Option<i16>,
        source: PointSource,
    },
}
