//! A refusal, and the instruction that it speaks of.
use facts::refusal::{Refusal, RefusalKind, RefusedAt};
use scan_code::Image;

/// An image that is refused: why, and what of it.
#[derive(Drop)]
pub struct Refused {
    pub image: Image,
    pub at: RefusedAt,
    pub kind: RefusalKind,
}

impl Refused {
    ghost use Rattle.std.specs.Prelude.{◌≡◌};
    ghost use Rattle.verifier.specs.Judging.{refused};

    /// The image that was handed in, with its refusal.
    pub(crate) fn new(image: Image, refusal: Refusal) -> Refused
        ensures { result ≡ refused image refusal }
    {
        Refused {
            image,
            at: refusal.at,
            kind: refusal.kind,
        }
    }
}
