//! A device of a site.
use crate::text::Text;

/// How registers of a device are written (MODBUS Application Protocol V1.1b3, 6.6 and 6.12).
#[derive(Clone, Copy, PartialEq, Eq, Debug)]
pub enum WriteFunction {
    /// Function 16: registers side by side.
    Multiple,
    /// Function 6: one register; longer points go by function 16 all the same.
    Single,
}

/// A device that the gateway polls.
#[derive(Debug, Drop)]
pub struct SiteDevice {
    /// Its name in the site file; no two devices have one.
    pub name: Text,
    /// Its unit on the link; no two devices have one.
    pub unit: u8,
    /// The address of its map's mark, in 0..65534; None where it is to be searched for.
    pub base: Option<u16>,
    pub write: WriteFunction,
    /// Seconds, in 0..3,600, in which a set point that the device acknowledged isn't written again; 0: it is written at
    /// each scan.
    pub rewrite: u16,
}
