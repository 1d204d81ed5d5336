//! How many instructions scans take.

/// How many instructions the scans of the program that runs took.
#[derive(Clone, Copy)]
pub(crate) struct ScanSteps {
    /// Of its last scan; none before the first one.
    last: Option<u32>,
    /// Of its longest one.
    most: Option<u32>,
}

impl ScanSteps {
    /// A program of which there was no scan yet.
    pub(crate) fn new() -> ScanSteps {
        ScanSteps {
            last: None,
            most: None,
        }
    }

    /// One more scan, of so many instructions.
    pub(crate) fn add(&mut self, steps: u32) {
        self.most = Some(match self.most {
            Some(most) => most.max(steps),
            None => steps,
        });
        self.last = Some(steps);
    }

    pub(crate) fn last(self) -> Option<u32> {
        self.last
    }

    pub(crate) fn most(self) -> Option<u32> {
        self.most
    }
}
