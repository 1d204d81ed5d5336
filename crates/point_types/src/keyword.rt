//! The reserved words.
ghost use Rattle.std.specs.Prelude.{◌≡◌, bytes_eq};
ghost use Rattle.std.specs.List.{list_any};
ghost use Rattle.point_types.specs.Keyword.{conversions, is_reserved, plain_words};

/// The words of the grammar, the data types, and the operators with their modifiers.
static PLAIN_WORDS: [&str; 50] = [
    "program",
    "end_program",
    "var",
    "var_external",
    "end_var",
    "true",
    "false",
    "bool",
    "sint",
    "int",
    "dint",
    "lint",
    "usint",
    "uint",
    "udint",
    "ld",
    "ldn",
    "st",
    "stn",
    "s",
    "r",
    "jmp",
    "jmpc",
    "jmpcn",
    "ret",
    "retc",
    "retcn",
    "and",
    "andn",
    "or",
    "orn",
    "xor",
    "xorn",
    "add",
    "sub",
    "mul",
    "div",
    "mod",
    "gt",
    "ge",
    "eq",
    "ne",
    "le",
    "lt",
    "min",
    "max",
    "limit",
    "sel",
    "not",
    "abs",
];

/// The conversions between two whole-number types.
static CONVERSIONS: [&str; 42] = [
    "sint_to_int",
    "sint_to_dint",
    "sint_to_lint",
    "sint_to_usint",
    "sint_to_uint",
    "sint_to_udint",
    "int_to_sint",
    "int_to_dint",
    "int_to_lint",
    "int_to_usint",
    "int_to_uint",
    "int_to_udint",
    "dint_to_sint",
    "dint_to_int",
    "dint_to_lint",
    "dint_to_usint",
    "dint_to_uint",
    "dint_to_udint",
    "lint_to_sint",
    "lint_to_int",
    "lint_to_dint",
    "lint_to_usint",
    "lint_to_uint",
    "lint_to_udint",
    "usint_to_sint",
    "usint_to_int",
    "usint_to_dint",
    "usint_to_lint",
    "usint_to_uint",
    "usint_to_udint",
    "uint_to_sint",
    "uint_to_int",
    "uint_to_dint",
    "uint_to_lint",
    "uint_to_usint",
    "uint_to_udint",
    "udint_to_sint",
    "udint_to_int",
    "udint_to_dint",
    "udint_to_lint",
    "udint_to_usint",
    "udint_to_uint",
];

/// Whether a word in lower case is reserved, so that it is no name (IEC 61131-3 edition 2, 2.1.3).
pub(crate) fn is_reserved_word(word: &[u8]) -> bool
    ensures { result ≡ is_reserved word.now }
{
    is_among(word, &PLAIN_WORDS) || is_among(word, &CONVERSIONS)
}

fn is_among(word: &[u8], words: &[&str]) -> bool
    ensures { result ≡ list_any (λ known. bytes_eq word.now known.now) words.now }
{
    words.iter().any(|known| word == known.as_bytes())
}
