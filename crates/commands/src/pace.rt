//! How many scans a run has, how far apart they are, and whether clients ask between them.
ghost use Rattle.std.specs.Prelude.{◌≡◌, false};

/// How the scans of a run follow one another.
#[derive(Clone, Copy, Debug, PartialEq, Eq)]
pub struct RunPace {
    /// How many.
    pub scans: u32,
    /// The milliseconds from each to the next one, as the program is told them.
    pub every: u32,
    /// Whether clients are asked before each what they ask.
    pub asked: bool,
}

/// The milliseconds between two scans where nothing else is said.
pub const USUAL_PERIOD: u32 = 1_000;

impl RunPace {
    /// So many scans, a second apart, between which nobody asks.
    pub fn usual(scans: u32) -> RunPace
        ensures { result ≡ record { scans = scans; every = 1000; asked = false } }
    {
        RunPace {
            scans,
            every: USUAL_PERIOD,
            asked: false,
        }
    }
}
