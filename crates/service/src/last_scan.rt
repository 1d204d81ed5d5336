//! What the last scan came to.
ghost use Rattle.std.specs.Prelude.{◌≡◌, count_by, is_none};
ghost use Rattle.service.specs.Counting.{came_to};

use gateway::{Core, DEPTH};
use modbus_frame::Words;

/// What the last scan came to.
#[derive(Clone, Copy, Debug, PartialEq, Eq)]
pub(crate) struct LastScan {
    /// After how many instructions it ended.
    pub(crate) steps: u32,
    /// How many wanted blocks it had nothing of.
    pub(crate) lost: usize,
}

impl LastScan {
    /// That of a service whose program didn't run yet.
    pub(crate) fn none() -> LastScan {
        LastScan { steps: 0, lost: 0 }
    }

    /// That of a core.
    pub(crate) fn of(core: &Core<DEPTH>) -> LastScan
        ensures { result ≡ came_to core.now.standing.last }
    {
        LastScan {
            steps: core.steps(),
            lost: missing(core.scanned()),
        }
    }
}

/// Of how many blocks there is nothing.
fn missing(blocks: &[Option<Words>]) -> usize
    ensures { result ≡ count_by is_none blocks.now }
{
    blocks.iter().filter(|block| block.is_none()).count()
}
