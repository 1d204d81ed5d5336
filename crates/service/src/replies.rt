//! How long replies take.
ghost use Rattle.std.specs.Prelude.{◌≡◌};
ghost use Rattle.service.specs.Counting.{after_reply};

/// How long a device's replies took, in milliseconds; all are 0 where none came yet.
#[derive(Clone, Copy, Debug, PartialEq, Eq)]
pub struct Replies {
    /// The longest lately: each later one takes a tenth off it. At least 1 once one came.
    pub lately: u64,
    /// The shortest of all.
    pub least: u64,
    /// The longest of all.
    pub most: u64,
}

impl Replies {
    /// None so far.
    pub fn new() -> Replies
        ensures { result ≡ record { lately = 0; least = 0; most = 0 } }
    {
        Replies {
            lately: 0,
            least: 0,
            most: 0,
        }
    }

    /// One more came, after so many milliseconds.
    pub fn after(self, reply: u64) -> Replies
        ensures { result ≡ after_reply reply self }
    {
        let before = self.lately.saturating_sub(self.lately / 10);
        let least = if self.lately == 0 {
            reply
        } else {
            self.least.min(reply)
        };
        Replies {
            lately: reply.max(before).max(1),
            least,
            most: self.most.max(reply),
        }
    }
}
