//! From instructions to bytes.
ghost use Rattle.std.specs.Prelude.{◌≡◌, ℕ, [], ◌∷◌, ◌++◌, OnOk, OnErr};
ghost use Rattle.point_types.specs.Value.{code_of};
ghost use Rattle.scan_code.specs.Spelling.{place_bytes, byte_of, bytes_of, unsigned};

use crate::op::Op;
use crate::{instruction, instructions};
use point_types::{Condition, IlType, Operator};
use std::alloc::AllocError;

/// Appends an instruction's code byte and arguments, by its shape.
macro_rules! append {
    (bare $code:ident $byte:literal $a:ident $b:ident $c:ident) => { append_byte($code, $byte) };
    (operator $code:ident $byte:literal $a:ident $b:ident $c:ident) => { append_byte($code, $byte) };
    (leave $code:ident $byte:literal $a:ident $b:ident $c:ident) => { append_byte($code, $byte) };
    (variable $code:ident $byte:literal $a:ident $b:ident $c:ident) => { append_place($code, $byte, $a) };
    (input $code:ident $byte:literal $a:ident $b:ident $c:ident) => { append_place($code, $byte, $a) };
    (output $code:ident $byte:literal $a:ident $b:ident $c:ident) => { append_place($code, $byte, $a) };
    (truth $code:ident $byte:literal $a:ident $b:ident $c:ident) => { append_truth($code, $byte, $a) };
    (number $code:ident $byte:literal $a:ident $b:ident $c:ident) => { append_number($code, $byte, $a, $b) };
    (types $code:ident $byte:literal $a:ident $b:ident $c:ident) => { append_types($code, $byte, $a, $b) };
    (jump $code:ident $byte:literal $a:ident $b:ident $c:ident) => { append_place($code, $byte, $a) };
    (repeat $code:ident $byte:literal $a:ident $b:ident $c:ident) => { append_count($code, $byte, $a, $b, $c) };
}

macro_rules! append_by {
    (($op:expr, $code:ident) $($byte:literal $shape:ident $name:ident $method:ident;)*) => {
        match $op {
            $(instruction!($shape $name a b c) => append!($shape $code $byte a b c),)*
            // A return that always acts is an end.
            Op::Return(Condition::Always) => append_byte($code, 0x00),
        }
    };
}

impl Op {
    ghost use Rattle.std.specs.Prelude.{◌≡◌, ◌++◌, OnOk, OnErr};
    ghost use Rattle.scan_code.specs.Spelling.{spelled};

    /// Appends the instruction's bytes to the code; where memory is refused the code stays as it was.
    pub fn write(self, code: &mut Vec<u8>) -> Result<(), AllocError>
        ensures ok { OnOk result (code.new.items ≡ code.old.items ++ spelled self) }
        ensures err { OnErr result (code.new.items ≡ code.old.items) }
    {
        instructions!(append_by(self, code))
    }
}

/// A code byte alone.
fn append_byte(code: &mut Vec<u8>, byte: u8) -> Result<(), AllocError>
    ensures ok { OnOk result (code.new.items ≡ code.old.items ++ byte ∷ []) }
    ensures err { OnErr result (code.new.items ≡ code.old.items) }
{
    code.extend_from_slice(&[byte])
}

/// A code byte, and the number of a variable or a tag, or an address.
fn append_place(code: &mut Vec<u8>, byte: u8, place: u16) -> Result<(), AllocError>
    ensures ok { OnOk result (code.new.items ≡ code.old.items ++ byte ∷ place_bytes place) }
    ensures err { OnErr result (code.new.items ≡ code.old.items) }
{
    let [high, low] = place.to_be_bytes();
    code.extend_from_slice(&[byte, high, low])
}

/// A code byte, a counter, how often at most, and an address.
fn append_count(
    code: &mut Vec<u8>,
    byte: u8,
    counter: u8,
    limit: u8,
    to: u16,
) -> Result<(), AllocError>
    ensures ok { OnOk result (code.new.items ≡ code.old.items ++ byte ∷ counter ∷ limit ∷ place_bytes to) }
    ensures err { OnErr result (code.new.items ≡ code.old.items) }
{
    let [high, low] = to.to_be_bytes();
    code.extend_from_slice(&[byte, counter, limit, high, low])
}

/// A code byte, and 1 for TRUE or 0 for FALSE.
fn append_truth(code: &mut Vec<u8>, byte: u8, truth: bool) -> Result<(), AllocError>
    ensures ok { OnOk result (code.new.items ≡ code.old.items ++ byte ∷ byte_of truth ∷ []) }
    ensures err { OnErr result (code.new.items ≡ code.old.items) }
{
    code.extend_from_slice(&[byte, truth as u8])
}

/// A code byte, and the numbers of two types.
fn append_types(code: &mut Vec<u8>, byte: u8, from: IlType, to: IlType) -> Result<(), AllocError>
    ensures ok { OnOk result (code.new.items ≡ code.old.items ++ byte ∷ code_of from ∷ code_of to ∷ []) }
    ensures err { OnErr result (code.new.items ≡ code.old.items) }
{
    code.extend_from_slice(&[byte, number_of(from), number_of(to)])
}

/// A code byte, the number of a type, and a number in two's complement.
fn append_number(code: &mut Vec<u8>, byte: u8, kind: IlType, n: i64) -> Result<(), AllocError>
    ensures ok { OnOk result (code.new.items ≡ code.old.items ++ byte ∷ code_of kind ∷ bytes_of 8 (unsigned n) []) }
    ensures err { OnErr result (code.new.items ≡ code.old.items) }
{
    let [a, b, c, d, e, f, g, h] = n.to_be_bytes();
    code.extend_from_slice(&[byte, number_of(kind), a, b, c, d, e, f, g, h])
}

/// The number of a type in code and images.
pub(crate) fn number_of(kind: IlType) -> u8
    ensures { result ≡ code_of kind }
{
    kind as u8
}
