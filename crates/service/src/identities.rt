//! What devices have to say of themselves, and what they said: what is kept of it.
ghost use Rattle.std.specs.Prelude.{◌≡◌, length};

use service_requests::Identity;

/// What each device has to say of itself, and what it said.
#[derive(Drop)]
pub(crate) struct Identities {
    /// By device; one without an entry has to say nothing.
    pub(crate) wanted: Vec<Option<Identity>>,
    /// What each said last.
    pub(crate) last: Vec<Option<Said>>,
    /// What each had said last when its map was found.
    pub(crate) found: Vec<Option<Said>>,
    ghost sized: { length found.items ≡ length last.items },
}

/// The registers of a common model, from its ID on.
#[derive(Clone, Copy)]
pub(crate) struct Said {
    /// The number of the connection over which they came.
    pub(crate) number: u64,
    pub(crate) words: [u16; 66],
}
