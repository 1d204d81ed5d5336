//! Which deferred values are missing, or too many.
use crate::refusing::MOST_DEFERRED;
use facts::fact::Fact;
use scan_code::Op;
use std::alloc::{AllocError, Global};

/// What is told where ways don't meet.
pub(crate) fn clash_text(alloc: Global) -> Result<String, AllocError> {
    String::from_str(
        alloc,
        "ways with different numbers of deferred values meet here",
    )
}

/// How many values are deferred, and how many may be.
pub(crate) fn stack_text(alloc: Global, fact: &Fact, op: Op) -> Result<String, AllocError> {
    let deferred = fact.depth();
    match op {
        Op::Push => {
            let most = MOST_DEFERRED;
            format!(in alloc; "{deferred} values are deferred, and {most} are the most")
        }
        Op::Repeat(_, _, _, _) => {
            format!(in alloc; "{deferred} values are deferred, and none may be at a counted jump")
        }
        _ => format!(in alloc; "{deferred} values are deferred, and more are wanted"),
    }
}
