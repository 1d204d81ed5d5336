//! Links to devices.
use crate::limits::Station;

/// Where devices are reached, and which connection each link has.
#[derive(Drop)]
pub struct Stations {
    /// Where each device is reached.
    pub stations: Vec<Station>,
    /// The number of each link's connection, which goes up by one as each comes up.
    pub numbers: Vec<u64>,
}
