//! A service of a gateway.
ghost use Rattle.std.specs.Prelude.{◌≡◌};
ghost use Rattle.service.specs.Cycle.{stage_of};
ghost use Rattle.service.specs.Identity.{AreRight};
ghost use Rattle.service.specs.Stages.{IsReached};
ghost use Rattle.service_parts.specs.Requests.{AreRightfulBy};

use crate::cycle::Cycle;
use crate::device_side::DeviceSide;
use crate::held_writes::HeldWrites;
use gateway::{Core, DEPTH};
use service_parts::{ClientPlace, Connections};

/// A service of a gateway: its core, connections to devices, clients, and what happened. It takes memory only
/// when it is made.
#[derive(Drop)]
pub struct Service {
    pub(crate) cycle: Cycle,
    pub(crate) lines: Connections,
    pub(crate) side: DeviceSide,
    pub(crate) held: HeldWrites,
    pub(crate) places: Vec<ClientPlace>,
    ghost rightful: { AreRightfulBy cycle.core.value lines },
    ghost right: { AreRight held.identities lines.found_on.items },
}

impl Service {
    /// The core. Rounds and clients alone brought it to where it stands, step by step, whatever came from clients, devices and
    /// the clock.
    pub fn core(&self) -> &Core<DEPTH>
        ensures now { result.now ≡ self.now.cycle.core.value }
        ensures reached { ∥ IsReached (stage_of self.now.cycle) ∥₁ }
    {
        self.cycle.core()
    }

    /// How many times the program ran.
    pub fn scans(&self) -> u64
        ensures { result ≡ self.now.side.scans }
    {
        self.side.scans
    }
}
