//! Bytes of a text.
ghost use Rattle.std.specs.Prelude.{◌≡◌, ◌≤◌};
ghost use Rattle.point_types.specs.Name.{is_digit, is_letter};

/// Whether this is a letter in lower case, or the underscore.
pub(crate) fn is_word_letter(byte: u8) -> bool
    ensures { result ≡ is_letter byte }
{
    (byte >= b'a' && byte <= b'z') || byte == b'_'
}

/// Whether this is one of 0 to 9.
pub(crate) fn is_decimal_digit(byte: u8) -> bool
    ensures { result ≡ is_digit byte }
{
    byte >= b'0' && byte <= b'9'
}
