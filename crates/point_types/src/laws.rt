//! What is proved of the definitions that the contracts cite; the functions do nothing.

ghost use Rattle.point_types.specs.Laws.{AtLeastOneReading, AtLeastOneReadingDown, AtMostOneEncoding, AtMostOneReading, AtMostOneReadingDown, AtMostOneSpelling, DownIsNeverInexact, EncodingsReadBack, KindsHoldTheirNumbers, RoundTrip};

/// The words of a kind that stand for a number are the only ones, and there are words for each number that it can hold
/// and for no other.
pub fn numbers_have_one_spelling()
    ensures at_most { AtMostOneSpelling }
    ensures exactly { KindsHoldTheirNumbers }
{}

/// A point has exactly one reading.
pub fn points_have_one_reading()
    ensures at_most { AtMostOneReading }
    ensures at_least { AtLeastOneReading }
{}

/// A point has exactly one reading that is rounded down, and it isn't Inexact.
pub fn points_have_one_reading_down()
    ensures at_most { AtMostOneReadingDown }
    ensures at_least { AtLeastOneReadingDown }
    ensures whole { DownIsNeverInexact }
{}

/// Each number that a kind can hold is encoded, and read back; and by any scale factor the words of an encoding are those
/// that read as the number.
pub fn encodings_read_back()
    ensures at_most { AtMostOneEncoding }
    ensures exactly { EncodingsReadBack }
    ensures round_trip { RoundTrip }
{}
