//! The columns of the table.

/// How many there are.
pub(crate) const COUNT: usize = 14;

/// Their heads.
pub(crate) const HEADS: [&str; COUNT] = [
    "address",
    "number",
    "registers",
    "model",
    "point",
    "kind",
    "factor",
    "unit",
    "access",
    "shows",
    "range",
    "default",
    "lapse",
    "refused",
];
