//! The value that an input line spells.
ghost use Rattle.std.specs.Prelude.{◌≡◌, ◌≤◌, pos, true};
ghost use Rattle.point_types.specs.Name.{is_digit};
ghost use Rattle.commands.specs.Given.{digits, grown, held, number_given, truth_given, value_given};

use point_types::IlType;

/// The value of a type that a text spells: TRUE or FALSE for a BOOL, in any case, else a decimal
/// (IEC 61131-3 edition 2, 2.2.1). None where it spells none, or one outside the type.
pub fn value_of(kind: IlType, text: &[u8]) -> Option<i64>
    ensures { result ≡ value_given kind text.now }
{
    match kind {
        IlType::Bool => truth_of(text),
        _ => number_of(kind, text),
    }
}

fn truth_of(text: &[u8]) -> Option<i64>
    ensures { result ≡ truth_given text.now }
{
    if text.eq_ignore_ascii_case(b"TRUE") {
        Some(1)
    } else if text.eq_ignore_ascii_case(b"FALSE") {
        Some(0)
    } else {
        None
    }
}

fn number_of(kind: IlType, text: &[u8]) -> Option<i64>
    ensures { result ≡ number_given kind text.now }
{
    match text {
        [] => None,
        [first, rest @ ..] if *first == b'+' => digits_of(kind, false, rest),
        [first, rest @ ..] if *first == b'-' => digits_of(kind, true, rest),
        _ => digits_of(kind, false, text),
    }
}

// The number that digits after a sign spell, single underscores between them.
fn digits_of(kind: IlType, negative: bool, text: &[u8]) -> Option<i64>
    ensures { result ≡ digits kind negative true (pos 0) text.now }
{
    let mut value = 0;
    let mut wanting = true;
    let mut rest = text;
    while let [byte, after @ ..] = rest {
        if is_decimal_digit(*byte) {
            value = with_digit(kind, negative, value, *byte)?;
            wanting = false;
        } else if *byte == b'_' && !wanting {
            wanting = true;
        } else {
            return None;
        }
        rest = after;
    }
    if wanting { None } else { Some(value) }
}

// A number with one more digit, where it stays in its type.
fn with_digit(kind: IlType, negative: bool, value: i64, byte: u8) -> Option<i64>
    requires { 48 ≤ byte }
    ensures { result ≡ held kind (grown negative value byte) }
{
    match i64::try_from(grow(negative, value, byte)) {
        Ok(longer) => hold(kind, longer),
        Err(_) => None,
    }
}

fn grow(negative: bool, value: i64, byte: u8) -> i128
    requires { 48 ≤ byte }
    ensures { result ≡ grown negative value byte }
{
    let tenfold = 10 * i128::from(value);
    let digit = i128::from(byte - b'0');
    if negative {
        tenfold - digit
    } else {
        tenfold + digit
    }
}

fn hold(kind: IlType, value: i64) -> Option<i64>
    ensures { result ≡ held kind value }
{
    if kind.low() <= value && value <= kind.high() {
        Some(value)
    } else {
        None
    }
}

fn is_decimal_digit(byte: u8) -> bool
    ensures { result ≡ is_digit byte }
{
    byte >= b'0' && byte <= b'9'
}
