//! What a core keeps beside its machine.
use point_types::Reading;
use site_model::Words;

/// What a gateway knows, each list as long as the site's wants or its tags.
pub(crate) struct Memory {
    /// The words of the wanted blocks.
    pub(crate) blocks: Vec<Option<Words>>,
    /// What clients set.
    pub(crate) sets: Vec<Option<i64>>,
    /// The milliseconds since a client set each tag last, where one did; a day at most.
    pub(crate) ages: Vec<Option<u32>>,
    /// The milliseconds since the last scan, where there was one; an hour at most.
    pub(crate) elapsed: Option<u32>,
    /// What the program stored in the last scan.
    pub(crate) outputs: Vec<Option<i64>>,
    /// What the tags were in the last scan.
    pub(crate) readings: Vec<Reading>,
    /// How many instructions the last scan took.
    pub(crate) steps: u32,
    /// The words of the wanted blocks at the last scan.
    pub(crate) scanned: Vec<Option<Words>>,
}

/// A call for whoever drops one: the proofs of the functions that own one needn't take it apart.
impl Drop for Memory {
    fn drop(self) {
        let Memory {
            blocks: _,
            sets: _,
            ages: _,
            elapsed: _,
            outputs: _,
            readings: _,
            steps: _,
            scanned: _,
        } = self;
    }
}
