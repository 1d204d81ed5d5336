//! Who looks on at the scans of a run.
use crate::accepted::DEPTH;
use crate::clients::{ClientTurn, ScanClients};
use gateway::{Core, WriteOrder};

/// Looks on at the scans of a run: for what is told of them beside standard output, of which no contract speaks.
pub trait ScanWatch {
    /// After the scan of this number, counted from 1, whose line is printed; `order` has the outputs that had their turn in it.
    fn scanned(&mut self, core: &Core<DEPTH>, order: &WriteOrder, scan: u32);
}

/// Nobody; and no client asks.
#[derive(Drop)]
pub struct Unwatched;

impl ScanWatch for Unwatched {
    fn scanned(&mut self, _core: &Core<DEPTH>, _order: &WriteOrder, _scan: u32) {}
}

impl ScanClients for Unwatched {
    fn turn(&mut self, _core: &Core<DEPTH>, _scan: u32, _i: u32) -> ClientTurn {
        ClientTurn::Rests
    }
}
