//! What a device works as.
use crate::points::{InverterPoints, MeterPoints};
use crate::series::Series;
use crate::watts::Watts;
use point_types::Items;

/// What a device works as.
#[derive(Debug, Drop)]
pub(crate) enum Works {
    Inverter(Inverter),
    Meter(Meter),
}

/// What an inverter makes its power of.
#[derive(Debug, Drop)]
pub(crate) struct Inverter {
    /// The watts of which its limit is a percentage.
    pub(crate) wmax: u32,
    /// The watts that are available at the ticks to come.
    pub(crate) available: Series,
    /// The most watts by which its power goes up or down at a tick; None where it goes at once.
    pub(crate) ramp: Option<u32>,
    /// The watts that it has produced since its last tick; 0 before the first.
    pub(crate) produced: Watts,
    pub(crate) points: InverterPoints,
}

/// What a meter at the grid measures.
#[derive(Debug, Drop)]
pub(crate) struct Meter {
    /// The watts that are used at the ticks to come.
    pub(crate) load: Series,
    /// The units of the inverters whose watts go through it.
    pub(crate) behind: Items<u8>,
    pub(crate) points: MeterPoints,
}
