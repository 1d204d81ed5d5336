//! The core with its round and its searches.
ghost use Rattle.std.specs.Prelude.{◌≡◌, [], All, IfOk, IsTrue, Some, length, slice_get};
ghost use Rattle.service_parts.specs.Course.{IsNew};
ghost use Rattle.service_parts.specs.Seeking.{AreOf};
ghost use Rattle.service.specs.Maps.{has_map, is_there};
ghost use Rattle.service.specs.Rounds.{IsRoundFor, IsUntold};
ghost use Rattle.service.specs.Stages.{IsReached};

use crate::client_writes::{ClientWrite, ClientWrites};
use crate::round::Round;
use gateway::{Core, DEPTH};
use register_map::Map;
use service_requests::Search;
use std::alloc::{AllocError, Global};

/// The core, behind its guard, with what is known and written, and the searches for its devices' maps.
#[derive(Drop)]
pub struct Cycle {
    pub(crate) core: Box<Core<DEPTH>>,
    pub(crate) round: Round,
    /// One for each device.
    pub(crate) searches: Vec<Search>,
    /// The number of the connection over which each device is searched.
    pub(crate) over: Vec<u64>,
    /// Whether the client whose turn it is may write.
    pub(crate) may_write: bool,
    /// What it wrote in this turn.
    pub(crate) writes: ClientWrites,
    ghost reached: { ∥ IsReached (record { core = core.value; round = round }) ∥₁ },
    ghost fits: { IsRoundFor core.value.site round },
    ghost sought: { AreOf core.value.site searches.items },
}

impl Cycle {
    /// A round and a search for each device, none of which has begun, over a core that is at its opening.
    #[tactic(auto, using(crate::proofs::Courses::reached_first))]
    pub fn new(
        alloc: Global,
        core: Core<DEPTH>,
        round: Round,
        searches: Vec<Search>,
        over: Vec<u64>,
    ) -> Result<Cycle, AllocError>
        requires opened { IsNew core }
        requires fits { IsRoundFor core.site round }
        requires untold { All IsUntold round.told }
        requires sought { AreOf core.site searches.items }
        ensures core { IfOk result (λ cycle. cycle.core.value ≡ core) }
        ensures round { IfOk result (λ cycle. cycle.round ≡ round) }
    {
        let core = Box::new(alloc, core)?;
        Ok(Cycle {
            core,
            round,
            searches,
            over,
            may_write: false,
            writes: ClientWrites::new(),
        })
    }

    pub fn core(&self) -> &Core<DEPTH>
        ensures { result.now ≡ self.now.core.value }
    {
        &self.core
    }

    /// What is known of the wanted blocks, and how far the writes are.
    pub fn round(&self) -> &Round
        ensures { result.now ≡ self.now.round }
    {
        &self.round
    }

    /// What the client whose turn it is wrote in it.
    pub fn writes(&self) -> &[ClientWrite]
        ensures { result.now ≡ self.now.writes }
    {
        self.writes.as_slice()
    }

    /// How many devices there are.
    pub fn devices(&self) -> usize
        ensures { result ≡ length self.now.core.value.site.devices }
    {
        self.core.site().devices().len()
    }

    /// Whether the device has a map.
    pub fn is_mapped(&self, device: usize) -> bool
        ensures { result ≡ has_map self.now.core.value device }
    {
        is_there(self.core.maps(), device)
    }

    /// Whether the device is searched over the connection with this number.
    pub fn is_sought_over(&self, device: usize, number: u64) -> bool
        ensures { IsTrue result → slice_get self.now.over.items device ≡ Some number }
    {
        match self.over.get(device) {
            Some(over) => *over == number,
            None => false,
        }
    }

    /// From now on the turn is a client's that may write, or may not, and that wrote nothing yet.
    pub fn turn_to(&mut self, may_write: bool)
        ensures { self.new ≡ record self.old { may_write = may_write; writes = [] } }
    {
        self.may_write = may_write;
        self.writes.clear();
    }
}

/// Whether there is a map at this place.
fn is_there(maps: &[Option<Map>], device: usize) -> bool
    ensures { result ≡ is_there (slice_get maps.now device) }
{
    match maps.get(device) {
        Some(Some(_)) => true,
        _ => false,
    }
}
