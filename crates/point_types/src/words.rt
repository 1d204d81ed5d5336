//! From the words of a register to a number.
ghost use Rattle.std.specs.Prelude.{◌≡◌, ◌≢◌, ◌≤◌, ◌<◌, ◌^◌, length};
ghost use Rattle.point_types.specs.Point.{number_of, size_of, value_of};

use crate::form::Form;
use crate::kind::{Kind, numeric_kinds};

/// The number that some registers hold, the most significant register first; a register has 16 bits.
pub fn number<const W: usize>(words: [u16; W]) -> u64
    requires { W ≤ 4 }
    ensures { result ≡ number_of words.entry }
{
    number_in(&words)
}

macro_rules! read_by {
    (($kind:expr, $number:expr) $($name:ident $size:literal $form:ident $unimplemented:literal;)*) => {
        match $kind {
            $(Kind::$name => Form::$form.read($size, $unimplemented, $number),)*
            Kind::String => unreachable!(),
        }
    };
}

/// The value of a point of this kind, whose registers hold these words: its raw number, before any scale factor. None
/// where the point is absent: the words are the kind's unimplemented ones, or the top bit of a bitfield is set.
pub fn value(kind: Kind, words: &[u16]) -> Option<i128>
    requires numeric { kind ≢ Kind.String }
    requires sized { length words.now ≡ size_of kind }
    ensures { result ≡ value_of kind words.now }
{
    let number = number_in(words);
    numeric_kinds!(read_by(kind, number))
}

fn number_in(words: &[u16]) -> u64
    requires { length words.now ≤ 4 }
    ensures value { result ≡ number_of words.now }
    ensures bound { result < 65536 ^ length words.now }
{
    let mut number = 0;
    for word in words {
        number = number << 16 | u64::from(*word);
    }
    number
}
