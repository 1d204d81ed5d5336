//! What a plant does wrong on purpose, for tests of those that poll it.

/// How the answer to one frame differs from the right one.
#[derive(Clone, Copy, PartialEq, Eq, Debug)]
pub enum Misbehaviour {
    /// The request isn't done; the reply is the exception with this code.
    Exception(u8),
    /// The reply goes out so many times with the transaction before its own, and then once right.
    Stale(u8),
    /// In the reply to a reading request each register is this one.
    Garbage(u16),
    /// The reply's length field is 255.
    Length,
    /// At most so many bytes of the reply go out, and nothing after them.
    Cut(u16),
}

/// A misbehaviour at one frame.
#[derive(Clone, Copy, PartialEq, Eq, Debug)]
pub struct Fault {
    /// The number of the frame, counted from 1 over all that the plant was sent; at most 1,000,000.
    pub request: u32,
    pub kind: Misbehaviour,
}
