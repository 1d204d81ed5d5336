//! The most instructions of a scan.
ghost use Rattle.std.specs.Prelude.{◌≡◌, ◌<◌, ◌≤◌, ◌*◌, ◌||◌, nat_eq, None, length, if◌then◌else◌, IfOk};
ghost use Rattle.verifier.specs.Budget.{AreUpTo, IsUpTo, budget_of, count_of, greatest_from, length_at, length_from, length_of, lengths_from, longer, one_more, total_count, turns_of};
ghost use Rattle.facts.specs.Flow.{number_at};
ghost use Rattle.verifier.specs.Heads.{heads_of, is_among};

use crate::heads::{is_head, loop_heads};
use facts::context::Context;
use point_types::Condition;
use scan_code::Op;
use std::alloc::{AllocError, Global};

/// The greatest number of instructions that a scan takes: those of the longest path from instruction 0 or
/// from the label of a counted jump to an end, once, and once more for each time that a counted jump may
/// be taken (IEC 61131-3 edition 2, 3.2.1). Paths go through reached instructions alone.
pub fn most_steps(alloc: Global, context: &Context, reached: &[bool]) -> Result<usize, AllocError>
    requires few { length context.now.listing < 65536 }
    requires each { length reached.now ≡ length context.now.listing }
    ensures { IfOk result (λ steps. steps ≡ budget_of context.now.listing reached.now) }
{
    let lengths = path_lengths(alloc, context, reached)?;
    let listing = context.instructions();
    let heads = loop_heads(alloc, listing)?;
    let longest = longest_path(listing, &heads, &lengths);
    Ok(longest * (1 + total_count(listing)))
}

/// For each instruction how many are on the longest path from it to an end, if any leads there.
pub fn path_lengths(
    alloc: Global,
    context: &Context,
    reached: &[bool],
) -> Result<Vec<Option<usize>>, AllocError>
    requires few { length context.now.listing < 65536 }
    requires each { length reached.now ≡ length context.now.listing }
    ensures { IfOk result (λ lengths. lengths.items ≡ lengths_from context.now.listing 0 reached.now context.now.listing) }
{
    let listing = context.instructions();
    let mut lengths = vec![in alloc; None; listing.len()]?;
    let mut n = listing.len();
    while n > 0 {
        n -= 1;
        let (_, later) = lengths.split_at(n + 1);
        let length = length_if(reached[n], context, n, listing[n].1, later);
        lengths[n] = length;
    }
    Ok(lengths)
}

/// The length at an instruction that is reached or not.
fn length_if(
    reached: bool,
    context: &Context,
    n: usize,
    op: Op,
    later: &[Option<usize>],
) -> Option<usize>
    requires { AreUpTo 65535 later.now }
    ensures { result ≡ (if reached then length_from context.now.listing n op later.now else None) }
{
    if reached {
        length_from(context, n, op, later)
    } else {
        None
    }
}

/// The length at one instruction, from those of the later ones.
fn length_from(context: &Context, n: usize, op: Op, later: &[Option<usize>]) -> Option<usize>
    requires { AreUpTo 65535 later.now }
    ensures { result ≡ length_from context.now.listing n op later.now }
{
    match op {
        Op::End | Op::Return(Condition::Always) => Some(1),
        Op::Return(_) => longer(Some(1), one_more(length_at(later, 0))),
        Op::Jump(Condition::Always, to) => one_more(length_of(context, n, to, later)),
        Op::Jump(_, to) => one_more(longer(length_at(later, 0), length_of(context, n, to, later))),
        _ => one_more(length_at(later, 0)),
    }
}

/// The length at the instruction that a jump leads to.
fn length_of(context: &Context, n: usize, to: u16, later: &[Option<usize>]) -> Option<usize>
    requires short { AreUpTo 65535 later.now }
    ensures value { result ≡ length_of later.now n (number_at context.now.listing 0 to) }
    ensures short { IsUpTo 65535 result }
{
    match context.number_at(usize::from(to)) {
        Some(target) if n < target => length_at(later, target - n - 1),
        _ => None,
    }
}

fn length_at(later: &[Option<usize>], n: usize) -> Option<usize>
    requires short { AreUpTo 65535 later.now }
    ensures value { result ≡ length_at later.now n }
    ensures short { IsUpTo 65535 result }
{
    match later.get(n) {
        Some(length) => *length,
        None => None,
    }
}

fn longer(length: Option<usize>, other: Option<usize>) -> Option<usize>
    ensures { result ≡ longer length other }
{
    match (length, other) {
        (None, length) | (length, None) => length,
        (Some(n), Some(k)) => Some(n.max(k)),
    }
}

fn one_more(length: Option<usize>) -> Option<usize>
    requires { IsUpTo 65536 length }
    ensures { result ≡ one_more length }
{
    match length {
        Some(n) => Some(n + 1),
        None => None,
    }
}

/// The greatest length where paths begin: at instruction 0, and where counted jumps lead.
fn longest_path(listing: &[(usize, Op)], heads: &[usize], lengths: &[Option<usize>]) -> usize
    requires heads { heads.now ≡ heads_of listing.now }
    requires each { length lengths.now ≡ length listing.now }
    requires short { AreUpTo 65535 lengths.now }
    ensures value { result ≡ greatest_from listing.now 0 lengths.now listing.now }
    ensures short { result ≤ 65535 }
{
    let mut longest = 0;
    let mut n = listing.len();
    while n > 0 {
        n -= 1;
        let count = start_count(is_start(heads, n, listing[n].0), lengths[n]);
        longest = count.max(longest);
    }
    longest
}

/// Whether paths begin at an instruction.
fn is_start(heads: &[usize], n: usize, address: usize) -> bool
    ensures { result ≡ nat_eq n 0 || is_among heads.now address }
{
    n == 0 || is_head(heads, address)
}

fn start_count(is_start: bool, length: Option<usize>) -> usize
    ensures { result ≡ (if is_start then count_of length else 0) }
{
    match length {
        Some(n) if is_start => n,
        _ => 0,
    }
}

/// How often counted jumps are taken at most, all together.
fn total_count(listing: &[(usize, Op)]) -> usize
    requires { length listing.now < 65536 }
    ensures value { result ≡ total_count listing.now }
    ensures bounded { result < 65536 * 256 }
{
    let mut total = 0;
    let mut rest = listing;
    while let [(_, op), after @ ..] = rest {
        total += usize::from(turns_of(*op));
        rest = after;
    }
    total
}

fn turns_of(op: Op) -> u8
    ensures { result ≡ turns_of op }
{
    match op {
        Op::Repeat(_, _, turns, _) => turns,
        _ => 0,
    }
}
