//! The instructions of a code with their addresses.
ghost use Rattle.std.specs.Prelude.{◌≡◌, ◌<◌, ◌+◌, ◌^◌, slice_get};
ghost use Rattle.verifier.specs.Listing.{is_end, is_placed, is_tag, is_there, jumps_after, listing_of};
ghost use Rattle.facts.specs.Word.{AnswersOrWantsMemory};

use facts::instructions::Instructions;
use facts::refusal::{Refusal, RefusalKind, RefusedAt};
use point_types::Items;
use scan_code::{Image, Op, decode};
use std::alloc::Global;

/// The address and the instruction of each instruction of an image, from address 0 on. Refused with
/// Code is the first one, by its number, that doesn't decode, that names a variable or a tag that isn't
/// there or a tag of the other direction, or that is a counted jump with another counter than its own
/// or in an image of version 1; and the number of the instructions, where the last one isn't END.
pub fn listing(alloc: Global, image: &Image) -> Result<Instructions, Refusal>
    ensures { AnswersOrWantsMemory (λ listing. listing) (listing_of image.now) result }
{
    let code = image.code.as_slice();
    let mut listing = Vec::new(alloc);
    let mut at = 0;
    let mut jumps = 0;
    let mut ended = false;
    while at < code.len() {
        let Some((op, next)) = decode(code, at) else {
            return Err(wrong_at(listing.len()));
        };
        if !is_placed(image, jumps, op) {
            return Err(wrong_at(listing.len()));
        }
        listing.push((at, op))?;
        jumps = jumps_after(jumps, op);
        ended = is_end(op);
        at = next;
    }
    if ended {
        Ok(Instructions::of(alloc, Items::from_vec(listing))?)
    } else {
        Err(wrong_at(listing.len()))
    }
}

/// The refusal of a wrong instruction.
fn wrong_at(at: usize) -> Refusal
    ensures { result ≡ record { at = RefusedAt.Instruction at; kind = RefusalKind.Code } }
{
    Refusal {
        at: RefusedAt::Instruction(at),
        kind: RefusalKind::Code,
    }
}

/// Whether what an instruction names is there, after so many counted jumps.
fn is_placed(image: &Image, jumps: usize, op: Op) -> bool
    ensures { result ≡ is_placed image.now jumps op }
{
    match op {
        Op::LoadVariable(v) | Op::StoreVariable(v) | Op::SetVariable(v) | Op::ResetVariable(v) => {
            has_variable(image, v)
        }
        Op::LoadInput(t) | Op::LoadPresence(t) => has_tag(image, t, false),
        Op::StoreOutput(t) | Op::SetOutput(t) | Op::ResetOutput(t) => has_tag(image, t, true),
        Op::Repeat(_, counter, _, _) => image.version == 2 && usize::from(counter) == jumps,
        _ => true,
    }
}

/// Whether there is a variable of this number.
fn has_variable(image: &Image, v: u16) -> bool
    ensures { result ≡ is_there (slice_get image.now.vars v) }
{
    image.vars.as_slice().get(usize::from(v)).is_some()
}

/// Whether there is a tag of this number, that programs store, or load.
fn has_tag(image: &Image, t: u16, output: bool) -> bool
    ensures { result ≡ is_tag output (slice_get image.now.tags t) }
{
    match image.tags.as_slice().get(usize::from(t)) {
        Some(tag) => tag.output == output,
        None => false,
    }
}

/// How many counted jumps there are up to an instruction.
fn jumps_after(jumps: usize, op: Op) -> usize
    requires { jumps + 1 < 2 ^ 64 }
    ensures { result ≡ jumps_after jumps op }
{
    match op {
        Op::Repeat(_, _, _, _) => jumps + 1,
        _ => jumps,
    }
}

fn is_end(op: Op) -> bool
    ensures { result ≡ is_end op }
{
    matches!(op, Op::End)
}
