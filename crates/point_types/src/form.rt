//! How many words the types of points have, and how these spell a number.
ghost use Rattle.std.specs.Prelude.{◌≡◌, ◌<◌, ◌≤◌, ◌^◌, ◌<ℤ◌, ◌≤ℤ◌, pos, length, All, MatchOption};
ghost use Rattle.std.specs.Int.{int_rem_euclid};
ghost use Rattle.point_types.specs.Point.{meaning_of, number_of, row, HasNoSpelling, IsSpelling};

/// How the number in a point's registers is read: in two's complement, as it stands, or as bits of which the top one is
/// clear.
#[derive(Clone, Copy, PartialEq, Eq, Debug)]
pub(crate) enum Form {
    Signed,
    Unsigned,
    Flags,
}

impl Form {
    /// The value of a number in so many registers; None where it is the unimplemented one, or a bitfield's top bit is set.
    pub(crate) fn read(self, size: u32, unimplemented: u64, number: u64) -> Option<i128>
        requires sized { size ≤ 4 }
        requires fits { number < 65536 ^ size }
        ensures { result ≡ meaning_of (row size self unimplemented) number }
    {
        if number == unimplemented {
            return None;
        }
        let number = i128::from(number);
        let modulus = numbers_held(size);
        let has_top_bit = 2 * number >= modulus;
        match self {
            Form::Signed if has_top_bit => Some(number - modulus),
            Form::Flags if has_top_bit => None,
            _ => Some(number),
        }
    }

    /// The words that are read as this value. Only the number that it leaves in W registers can be.
    pub(crate) fn words<const W: usize>(self, unimplemented: u64, value: i128) -> Option<[u16; W]>
        requires { W ≤ 4 }
        ensures { let r = row W self unimplemented in
            MatchOption result (HasNoSpelling r value) (λ ws. IsSpelling r ws value) }
    {
        let number = wrapped(value, W as u32);
        match self.read(W as u32, unimplemented, number) {
            Some(read) if read == value => Some(split(number)),
            _ => None,
        }
    }
}

/// The number that is left of a value in so many registers.
fn wrapped(value: i128, size: u32) -> u64
    requires { size ≤ 4 }
    ensures remainder { int_rem_euclid value (pos (65536 ^ size)) ≡ pos result }
    ensures bound { result < 65536 ^ size }
{
    value.rem_euclid(numbers_held(size)) as u64
}

/// How many numbers so many registers can hold.
pub fn numbers_held(size: u32) -> i128
    requires { size ≤ 4 }
    ensures value { result ≡ pos (65536 ^ size) }
    ensures positive { pos 0 <ℤ result }
    ensures bound { result ≤ℤ pos (2 ^ 64) }
{
    65536i128.pow(size)
}

/// The registers of a number, the most significant first.
fn split<const W: usize>(number: u64) -> [u16; W]
    requires { number < 65536 ^ W }
    ensures value { number_of result ≡ number }
    ensures sized { length result ≡ W }
    ensures words { All (λ w. w < 65536) result }
{
    let mut words = [0; W];
    let mut rest = number;
    for i in (0..W).rev() {
        words[i] = (rest & 0xFFFF) as u16;
        rest >>= 16;
    }
    words
}
