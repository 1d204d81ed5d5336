//! Who looks on at the scans of a run.
mod missing;
mod outgoing;
mod recorder;
mod set_lines;
mod set_player;
mod tag_points;
mod trace;
mod trace_rows;
mod traced_spans;
mod unwritten;

use commands::{ClientTurn, DEPTH, ScanClients, ScanWatch, Unwatched};
use gateway::{Core, WriteOrder};
pub use missing::MissingWatch;
pub use recorder::Recorder;
pub use set_lines::{SetsFault, Setting, read_settings};
pub use set_player::{SetPlayer, tell_late};
use std::alloc::Global;
pub(crate) use tag_points::TagPoints;
pub use trace::Trace;
pub use traced_spans::{TraceFault, TracedSpans};
pub use unwritten::UnwrittenWatch;

/// Looks on at the scans of a run, and hears of the writes that were refused.
pub trait RunLook: ScanWatch {
    /// After the last scan, once for each write that a device refused, in order: which one it is of all that the scans sent,
    /// counted from 0, and by which exception. A scan sends those of its outputs in the order of their turns.
    fn refused(&mut self, write: usize, exception: u8);

    /// What clients were to set and couldn't, as soon as that is known, and why.
    fn unset(&mut self, setting: Setting<'_>, why: &'static str);
}

impl RunLook for Unwatched {
    fn refused(&mut self, _write: usize, _exception: u8) {}

    fn unset(&mut self, _setting: Setting<'_>, _why: &'static str) {}
}

/// Tells on standard error what the scans of a run don't read, don't show and don't write, has one more look on, and sets what
/// clients set.
#[derive(Drop)]
pub struct RunWatch<'r, R, V> {
    missing: MissingWatch<'r, R>,
    unwritten: UnwrittenWatch<'r, R>,
    clients: SetPlayer<'r, R>,
    beside: &'r mut V,
}

impl<'r, R: Eprint, V: ScanWatch> RunWatch<'r, R, V> {
    /// Nothing was told yet; where it is quiet, nothing will be.
    pub fn new(
        rt: &'r R,
        alloc: Global,
        quiet: bool,
        settings: &'r [Setting<'r>],
        beside: &'r mut V,
    ) -> RunWatch<'r, R, V> {
        RunWatch {
            missing: MissingWatch::new(rt, alloc, quiet),
            unwritten: UnwrittenWatch::new(rt, alloc, quiet),
            clients: SetPlayer::new(rt, alloc, quiet, settings),
            beside,
        }
    }
}

impl<R: Eprint, V: RunLook> ScanClients for RunWatch<'_, R, V> {
    fn turn(&mut self, core: &Core<DEPTH>, scan: u32, i: u32) -> ClientTurn {
        let turn = self.clients.turn(core, scan, i);
        if let ClientTurn::Passes = turn {
            self.clients.tell_refused(core, scan, i, self.beside);
        }
        turn
    }
}

impl<R: Eprint, V: ScanWatch> ScanWatch for RunWatch<'_, R, V> {
    fn scanned(&mut self, core: &Core<DEPTH>, order: &WriteOrder, scan: u32) {
        self.missing.scanned(core, order, scan);
        self.unwritten.scanned(core, order, scan);
        self.beside.scanned(core, order, scan);
    }
}

impl<R: Eprint, V: RunLook> RunLook for RunWatch<'_, R, V> {
    fn refused(&mut self, write: usize, exception: u8) {
        self.beside.refused(write, exception);
    }

    fn unset(&mut self, setting: Setting<'_>, why: &'static str) {
        self.beside.unset(setting, why);
    }
}
