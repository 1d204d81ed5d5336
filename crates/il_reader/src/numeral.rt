//! Numbers as they are spelled.
ghost use Rattle.std.specs.Prelude.{◌≡◌, pos};
ghost use Rattle.point_types.specs.Name.{folded, is_digit};
ghost use Rattle.il_reader.specs.Tokens.{base_named, below, digit_in, digit_of, grown, radix, spelled_on};

use crate::text::is_decimal_digit;
use point_types::lower_case;

/// A base other than ten (IEC 61131-3 edition 2, 2.2.1).
#[derive(Clone, Copy)]
pub(crate) enum Base {
    Two,
    Eight,
    Sixteen,
}

/// How a number is spelled, as far as it has been read (IEC 61131-3 edition 2, 2.2.1).
#[derive(Clone, Copy)]
pub(crate) enum Spelling {
    /// Decimal digits that `#` can still make a base: no sign, no leading zero, no underscore.
    Plain,
    /// Decimal digits without a sign.
    Decimal,
    /// Decimal digits after a sign: minus where true.
    Signed(bool),
    /// Digits after a base.
    Based(Base),
}

impl Spelling {
    /// The value of a byte that is a digit of this spelling.
    pub fn digit(self, byte: u8) -> Option<u8>
        ensures { result ≡ digit_in self byte }
    {
        match digit_value(byte) {
            Some(digit) => digit_below(self.radix(), digit),
            None => None,
        }
    }

    /// A number with one more digit.
    pub fn grow(self, value: i64, digit: u8) -> i128
        ensures { result ≡ grown self value digit }
    {
        let value = i128::from(value);
        let digit = i128::from(digit);
        match self {
            Spelling::Plain | Spelling::Decimal | Spelling::Signed(false) => 10 * value + digit,
            Spelling::Signed(true) => 10 * value - digit,
            Spelling::Based(Base::Two) => 2 * value + digit,
            Spelling::Based(Base::Eight) => 8 * value + digit,
            Spelling::Based(Base::Sixteen) => 16 * value + digit,
        }
    }

    /// The spelling after an underscore.
    pub fn parted(self) -> Spelling
        ensures { result ≡ spelled_on self }
    {
        match self {
            Spelling::Plain => Spelling::Decimal,
            other => other,
        }
    }

    /// The base that `#` makes of a number so spelled; none where it is no base.
    pub fn base(self, value: i64) -> Option<Base>
        ensures { result ≡ base_named self value }
    {
        match self {
            Spelling::Plain => base_of_value(value),
            _ => None,
        }
    }

    // How many digits there are.
    fn radix(self) -> u8
        ensures { result ≡ radix self }
    {
        match self {
            Spelling::Plain | Spelling::Decimal | Spelling::Signed(_) => 10,
            Spelling::Based(Base::Two) => 2,
            Spelling::Based(Base::Eight) => 8,
            Spelling::Based(Base::Sixteen) => 16,
        }
    }
}

fn base_of_value(value: i64) -> Option<Base>
    ensures { result ≡ base_named Spelling.Plain value }
{
    match value {
        2 => Some(Base::Two),
        8 => Some(Base::Eight),
        16 => Some(Base::Sixteen),
        _ => None,
    }
}

// The value of a digit, letters in either case.
fn digit_value(byte: u8) -> Option<u8>
    ensures { result ≡ digit_of byte }
{
    let lower = lower_case(byte);
    if is_decimal_digit(byte) {
        Some(byte - b'0')
    } else if lower >= b'a' && lower <= b'f' {
        Some(lower - b'a' + 10)
    } else {
        None
    }
}

fn digit_below(radix: u8, digit: u8) -> Option<u8>
    ensures { result ≡ below radix (Some digit) }
{
    if digit < radix { Some(digit) } else { None }
}
