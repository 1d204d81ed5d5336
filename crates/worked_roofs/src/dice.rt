//! Numbers that look random and are the same in each run.

/// A source of such numbers (xorshift, with shifts by 13, 7 and 17).
#[derive(Drop)]
pub(crate) struct Dice {
    state: u64,
}

/// Never 0, so that numbers come.
const FIRST: u64 = 0x9e37_79b9_7f4a_7c15;

impl Dice {
    /// Those of a seed.
    pub(crate) fn new(seed: u64) -> Dice {
        Dice {
            state: match seed ^ FIRST {
                0 => FIRST,
                state => state,
            },
        }
    }

    /// The next number below this one, or 0 where there is none.
    pub(crate) fn below(&mut self, most: u64) -> u64 {
        self.state ^= self.state << 13;
        self.state ^= self.state >> 7;
        self.state ^= self.state << 17;
        self.state.checked_rem(most).unwrap_or(0)
    }
}
