//! What is known of an input at a scan.

/// Why a tag has no value of its own, by the first cause that holds:
/// no block of its model is known; the point's or its factor's registers lie past the block;
/// the words are the unimplemented ones; the scale factor isn't one; no whole number is the value;
/// the value lies outside the tag's range.
#[derive(Clone, Copy, PartialEq, Eq, Debug)]
pub enum Cause {
    NotImplemented,
    BadScale,
    Inexact,
    OutOfRange,
    ShortModel,
    NoBlock,
}

/// What a scan knows of an input: a value of its own, its default with the cause why, or nothing.
#[derive(Clone, Copy, PartialEq, Eq, Debug)]
pub enum Reading {
    Value(i64),
    Default(i64, Cause),
    Absent(Cause),
}
