//! The numbers of a tag that have limits of their own.
ghost use Rattle.point_types.specs.Reading.{IsExponent};

/// The power of ten that the value is counted in, the bit where it is one, and the seconds after which what a client set
/// lapses.
#[derive(Clone, Copy)]
pub(crate) struct Measures {
    pub(crate) exponent: i8,
    pub(crate) bit: Option<u8>,
    pub(crate) lapse: Option<u32>,
    ghost scaled: { IsExponent exponent },
}
