//! What clients ask between the scans of a run.
ghost use Rattle.std.specs.Prelude.{true};
ghost use Rattle.commands.specs.Clients.{ClientsAsk};

use crate::accepted::DEPTH;
use gateway::{Core, Event};
use modbus_frame::Pdu;

/// The most turns of clients before one scan.
pub const MOST_TURNS: u32 = 4_096;

/// Asks what clients ask between two scans.
pub trait ScanClients {
    /// What they do in their turn of this number, counted from 0, before the scan of this number, counted from 1.
    fn turn(&mut self, core: &Core<DEPTH>, scan: u32, i: u32) -> ClientTurn;
}

/// What clients do in one turn.
#[derive(Drop)]
pub enum ClientTurn {
    /// One of them asks this.
    Asks(Pdu),
    /// There is no request for what was to be asked.
    Passes,
    /// There is nothing more before the scan.
    Rests,
}

/// Asks what there is to ask before the scan of this number, where clients are asked.
#[tactic(auto, using(crate::proofs::ClientLemmas::asks_nothing, crate::proofs::ClientLemmas::asks_if))]
pub(crate) fn ask<K: ScanClients>(asked: bool, core: &mut Core<DEPTH>, clients: &mut K, scan: u32)
    ensures { ClientsAsk asked core.old core.new }
{
    if asked {
        ask_all(core, clients, scan);
    }
}

/// Asks what there is to ask before the scan of this number.
#[tactic(auto, using(crate::proofs::ClientLemmas::asks_nothing, crate::proofs::ClientLemmas::asks_more))]
fn ask_all<K: ScanClients>(core: &mut Core<DEPTH>, clients: &mut K, scan: u32)
    ensures { ClientsAsk true core.old core.new }
{
    for i in 0..MOST_TURNS {
        match clients.turn(core, scan, i) {
            ClientTurn::Asks(pdu) => ask_once(core, pdu),
            ClientTurn::Passes => {}
            ClientTurn::Rests => return,
        }
    }
}

/// Asks this.
fn ask_once(core: &mut Core<DEPTH>, pdu: Pdu)
    ensures { ClientsAsk true core.old core.new }
{
    core.step(Event::Client(pdu));
}
