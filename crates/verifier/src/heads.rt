//! The instructions to which counted jumps go back.
ghost use Rattle.std.specs.Prelude.{◌≡◌, IfOk};
ghost use Rattle.verifier.specs.Heads.{heads_of, is_among};

use scan_code::Op;
use std::alloc::{AllocError, Global};

/// The addresses that counted jumps lead to.
pub(crate) fn loop_heads(alloc: Global, listing: &[(usize, Op)]) -> Result<Vec<usize>, AllocError>
    ensures { IfOk result (λ heads. heads.items ≡ heads_of listing.now) }
{
    let mut heads = Vec::new(alloc);
    let mut rest = listing;
    while let [(_, op), after @ ..] = rest {
        if let Op::Repeat(_, _, _, to) = op {
            heads.push(usize::from(*to))?;
        }
        rest = after;
    }
    Ok(heads)
}

/// Whether an address is one of them.
pub(crate) fn is_head(heads: &[usize], address: usize) -> bool
    ensures { result ≡ is_among heads.now address }
{
    let mut rest = heads;
    while let [head, after @ ..] = rest {
        if *head == address {
            return true;
        }
        rest = after;
    }
    false
}
