//! From bytes to instructions.
ghost use Rattle.std.specs.Prelude.{◌≡◌, ◌+◌, ◌*◌, ◌≤◌, ◌<◌, ◌∷◌, ℕ, length, IfSome, option_map};
ghost use Rattle.scan_code.specs.declared.op.Op.{Op};
ghost use Rattle.scan_code.specs.declared.op.Op.TheVariants as does;
ghost use Rattle.scan_code.specs.Instruction.{WithCount, WithNumber, WithPlace, WithTruth, WithTypes, completed, decoded, decoded_at, signed_from, whole_type};
ghost use Rattle.scan_code.specs.Spelling.{FitsBytes};

use crate::image_rules::is_within;
use crate::instructions;
use crate::op::Op;
use point_types::{Condition, IlType, Operator};

/// What the bytes after a code byte make of it, by the instruction's shape: the instruction, and how many of them it takes.
macro_rules! complete {
    (bare $name:ident $arguments:ident) => { Some((Op::$name, 0)) };
    (operator $name:ident $arguments:ident) => { Some((Op::Apply(Operator::$name), 0)) };
    (leave $name:ident $arguments:ident) => { Some((Op::Return(Condition::$name), 0)) };
    (variable $name:ident $arguments:ident) => { placed!($name $arguments) };
    (input $name:ident $arguments:ident) => { placed!($name $arguments) };
    (output $name:ident $arguments:ident) => { placed!($name $arguments) };
    (truth $name:ident $arguments:ident) => { truth_at($arguments) };
    (number $name:ident $arguments:ident) => { number_at($arguments) };
    (types $name:ident $arguments:ident) => { types_at($arguments) };
    (jump $name:ident $arguments:ident) => { jump_at(Condition::$name, $arguments) };
    (repeat $name:ident $arguments:ident) => { repeat_at(Condition::$name, $arguments) };
}

/// An instruction with the place that its arguments begin with.
macro_rules! placed {
    ($name:ident $arguments:ident) => {
        match place_at($arguments) {
            Some(place) => Some((Op::$name(place), 2)),
            None => None,
        }
    };
}

macro_rules! complete_by {
    (($byte:expr, $arguments:ident) $($code:literal $shape:ident $name:ident $method:ident;)*) => {
        match $byte {
            $($code => complete!($shape $name $arguments),)*
            _ => None,
        }
    };
}

/// The instruction at an address of the code, and the address after it. None where no instruction
/// stands there: past the code, or at another code byte, at arguments that are cut short, at a truth
/// value over 1, a type that isn't allowed, a number outside its type, or a count of 0.
pub fn decode(code: &[u8], at: usize) -> Option<(Op, usize)>
    ensures value { result ≡ decoded_at code.now at }
    ensures within { IfSome result (λ found. (at + 1 ≤ found.1) × (found.1 ≤ length code.now)) }
    ensures fits { IfSome result (λ found. FitsBytes found.0) }
{
    if at >= code.len() {
        return None;
    }
    let (op, arguments) = first(&code[at..])?;
    Some((op, at + 1 + arguments))
}

/// The instruction that the bytes begin with, and how many bytes of arguments it has.
fn first(bytes: &[u8]) -> Option<(Op, usize)>
    ensures value { result ≡ decoded bytes.now }
    ensures within { IfSome result (λ found. found.1 + 1 ≤ length bytes.now) }
    ensures fits { IfSome result (λ found. FitsBytes found.0) }
{
    match bytes {
        [byte, arguments @ ..] => coded(*byte, arguments),
        [] => None,
    }
}

/// The instruction of a code byte and its arguments, and how many bytes of arguments it has.
fn coded(byte: u8, arguments: &[u8]) -> Option<(Op, usize)>
    ensures value { result ≡ decoded (byte ∷ arguments.now) }
    ensures within { IfSome result (λ found. found.1 ≤ length arguments.now) }
    ensures fits { IfSome result (λ found. FitsBytes found.0) }
{
    instructions!(complete_by(byte, arguments))
}

/// The number of a place, or an address: big-endian.
#[inline(always)]
pub fn place_from(high: u8, low: u8) -> u16
    ensures { result ≡ high * 256 + low }
{
    u16::from_be_bytes([high, low])
}

/// The number of a place that the arguments begin with.
fn place_at(arguments: &[u8]) -> Option<u16>
    ensures value { (made : ℕ → Op) → option_map (λ place. (made place, 2)) result ≡ completed (WithPlace made) arguments.now }
    ensures within { IfSome result (λ place. (place < 65536) × (2 ≤ length arguments.now)) }
{
    match arguments {
        [high, low, ..] => Some(place_from(*high, *low)),
        _ => None,
    }
}

/// A jump: its address.
fn jump_at(condition: Condition, arguments: &[u8]) -> Option<(Op, usize)>
    ensures value { result ≡ completed (WithPlace (does.Jump condition)) arguments.now }
    ensures within { IfSome result (λ found. found.1 ≤ length arguments.now) }
    ensures fits { IfSome result (λ found. FitsBytes found.0) }
{
    let to = place_at(arguments)?;
    Some((Op::Jump(condition, to), 2))
}

/// A counted jump: its counter, how often it is taken at most, and its address.
fn repeat_at(condition: Condition, arguments: &[u8]) -> Option<(Op, usize)>
    ensures value { result ≡ completed (WithCount (does.Repeat condition)) arguments.now }
    ensures within { IfSome result (λ found. found.1 ≤ length arguments.now) }
    ensures fits { IfSome result (λ found. FitsBytes found.0) }
{
    match arguments {
        [_, 0, ..] => None,
        [counter, limit, high, low, ..] => {
            let to = place_from(*high, *low);
            Some((Op::Repeat(condition, *counter, *limit, to), 4))
        }
        _ => None,
    }
}

/// LDB: 0 or 1.
fn truth_at(arguments: &[u8]) -> Option<(Op, usize)>
    ensures value { result ≡ completed (WithTruth does.LoadBool) arguments.now }
    ensures within { IfSome result (λ found. found.1 ≤ length arguments.now) }
    ensures fits { IfSome result (λ found. FitsBytes found.0) }
{
    match arguments {
        [0, ..] => Some((Op::LoadBool(false), 1)),
        [1, ..] => Some((Op::LoadBool(true), 1)),
        _ => None,
    }
}

/// LDC: the number of a whole-number type, and a number of that type.
fn number_at(arguments: &[u8]) -> Option<(Op, usize)>
    ensures value { result ≡ completed (WithNumber does.LoadNumber) arguments.now }
    ensures within { IfSome result (λ found. found.1 ≤ length arguments.now) }
    ensures fits { IfSome result (λ found. FitsBytes found.0) }
{
    match arguments {
        [kind, a, b, c, d, e, f, g, h, ..] => {
            let kind = whole_type(*kind)?;
            let n = number_from([*a, *b, *c, *d, *e, *f, *g, *h]);
            if is_within(kind, n) {
                Some((Op::LoadNumber(kind, n), 9))
            } else {
                None
            }
        }
        _ => None,
    }
}

/// A number in two's complement, big-endian.
#[inline(always)]
pub fn number_from(bytes: [u8; 8]) -> i64
    ensures { result ≡ signed_from bytes }
{
    i64::from_be_bytes(bytes)
}

/// CONV: the numbers of two different whole-number types.
fn types_at(arguments: &[u8]) -> Option<(Op, usize)>
    ensures value { result ≡ completed (WithTypes does.Convert) arguments.now }
    ensures within { IfSome result (λ found. found.1 ≤ length arguments.now) }
    ensures fits { IfSome result (λ found. FitsBytes found.0) }
{
    match arguments {
        [from, to, ..] if from != to => {
            let from = whole_type(*from)?;
            let to = whole_type(*to)?;
            Some((Op::Convert(from, to), 2))
        }
        _ => None,
    }
}

/// The whole-number type of a number.
fn whole_type(number: u8) -> Option<IlType>
    ensures { result ≡ whole_type number }
{
    match number {
        1 => Some(IlType::Sint),
        2 => Some(IlType::Int),
        3 => Some(IlType::Dint),
        4 => Some(IlType::Lint),
        5 => Some(IlType::Usint),
        6 => Some(IlType::Uint),
        7 => Some(IlType::Udint),
        _ => None,
    }
}
