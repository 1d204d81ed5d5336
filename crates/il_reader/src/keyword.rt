//! The reserved words and what they stand for.
ghost use Rattle.std.specs.Prelude.{◌≡◌, map};
ghost use Rattle.il_reader.specs.Tokens.{keyword, look_up, word_token};

use crate::token::{Keyword, Token};
use point_types::{Condition, IlType, Name, Operator};

/// The words of the grammar, the data types, and the operators with their modifiers.
static PLAIN_WORDS: [(&str, Keyword); 50] = [
    ("program", Keyword::Program),
    ("end_program", Keyword::EndProgram),
    ("var", Keyword::Var),
    ("var_external", Keyword::VarExternal),
    ("end_var", Keyword::EndVar),
    ("true", Keyword::Truth(true)),
    ("false", Keyword::Truth(false)),
    ("bool", Keyword::Type(IlType::Bool)),
    ("sint", Keyword::Type(IlType::Sint)),
    ("int", Keyword::Type(IlType::Int)),
    ("dint", Keyword::Type(IlType::Dint)),
    ("lint", Keyword::Type(IlType::Lint)),
    ("usint", Keyword::Type(IlType::Usint)),
    ("uint", Keyword::Type(IlType::Uint)),
    ("udint", Keyword::Type(IlType::Udint)),
    ("ld", Keyword::Load(false)),
    ("ldn", Keyword::Load(true)),
    ("st", Keyword::Store(false)),
    ("stn", Keyword::Store(true)),
    ("s", Keyword::Set(true)),
    ("r", Keyword::Set(false)),
    ("jmp", Keyword::Jump(Condition::Always)),
    ("jmpc", Keyword::Jump(Condition::IfTrue)),
    ("jmpcn", Keyword::Jump(Condition::IfFalse)),
    ("ret", Keyword::Return(Condition::Always)),
    ("retc", Keyword::Return(Condition::IfTrue)),
    ("retcn", Keyword::Return(Condition::IfFalse)),
    ("and", Keyword::Apply(Operator::And, false)),
    ("andn", Keyword::Apply(Operator::And, true)),
    ("or", Keyword::Apply(Operator::Or, false)),
    ("orn", Keyword::Apply(Operator::Or, true)),
    ("xor", Keyword::Apply(Operator::Xor, false)),
    ("xorn", Keyword::Apply(Operator::Xor, true)),
    ("add", Keyword::Apply(Operator::Add, false)),
    ("sub", Keyword::Apply(Operator::Sub, false)),
    ("mul", Keyword::Apply(Operator::Mul, false)),
    ("div", Keyword::Apply(Operator::Div, false)),
    ("mod", Keyword::Apply(Operator::Mod, false)),
    ("gt", Keyword::Apply(Operator::Gt, false)),
    ("ge", Keyword::Apply(Operator::Ge, false)),
    ("eq", Keyword::Apply(Operator::Eq, false)),
    ("ne", Keyword::Apply(Operator::Ne, false)),
    ("le", Keyword::Apply(Operator::Le, false)),
    ("lt", Keyword::Apply(Operator::Lt, false)),
    ("min", Keyword::Apply(Operator::Min, false)),
    ("max", Keyword::Apply(Operator::Max, false)),
    ("limit", Keyword::Limit),
    ("sel", Keyword::Select),
    ("not", Keyword::Not),
    ("abs", Keyword::Absolute),
];

/// The conversions between two whole-number types.
static CONVERSIONS: [(&str, Keyword); 42] = [
    ("sint_to_int", Keyword::Convert(IlType::Sint, IlType::Int)),
    ("sint_to_dint", Keyword::Convert(IlType::Sint, IlType::Dint)),
    ("sint_to_lint", Keyword::Convert(IlType::Sint, IlType::Lint)),
    (
        "sint_to_usint",
        Keyword::Convert(IlType::Sint, IlType::Usint),
    ),
    ("sint_to_uint", Keyword::Convert(IlType::Sint, IlType::Uint)),
    (
        "sint_to_udint",
        Keyword::Convert(IlType::Sint, IlType::Udint),
    ),
    ("int_to_sint", Keyword::Convert(IlType::Int, IlType::Sint)),
    ("int_to_dint", Keyword::Convert(IlType::Int, IlType::Dint)),
    ("int_to_lint", Keyword::Convert(IlType::Int, IlType::Lint)),
    ("int_to_usint", Keyword::Convert(IlType::Int, IlType::Usint)),
    ("int_to_uint", Keyword::Convert(IlType::Int, IlType::Uint)),
    ("int_to_udint", Keyword::Convert(IlType::Int, IlType::Udint)),
    ("dint_to_sint", Keyword::Convert(IlType::Dint, IlType::Sint)),
    ("dint_to_int", Keyword::Convert(IlType::Dint, IlType::Int)),
    ("dint_to_lint", Keyword::Convert(IlType::Dint, IlType::Lint)),
    (
        "dint_to_usint",
        Keyword::Convert(IlType::Dint, IlType::Usint),
    ),
    ("dint_to_uint", Keyword::Convert(IlType::Dint, IlType::Uint)),
    (
        "dint_to_udint",
        Keyword::Convert(IlType::Dint, IlType::Udint),
    ),
    ("lint_to_sint", Keyword::Convert(IlType::Lint, IlType::Sint)),
    ("lint_to_int", Keyword::Convert(IlType::Lint, IlType::Int)),
    ("lint_to_dint", Keyword::Convert(IlType::Lint, IlType::Dint)),
    (
        "lint_to_usint",
        Keyword::Convert(IlType::Lint, IlType::Usint),
    ),
    ("lint_to_uint", Keyword::Convert(IlType::Lint, IlType::Uint)),
    (
        "lint_to_udint",
        Keyword::Convert(IlType::Lint, IlType::Udint),
    ),
    (
        "usint_to_sint",
        Keyword::Convert(IlType::Usint, IlType::Sint),
    ),
    ("usint_to_int", Keyword::Convert(IlType::Usint, IlType::Int)),
    (
        "usint_to_dint",
        Keyword::Convert(IlType::Usint, IlType::Dint),
    ),
    (
        "usint_to_lint",
        Keyword::Convert(IlType::Usint, IlType::Lint),
    ),
    (
        "usint_to_uint",
        Keyword::Convert(IlType::Usint, IlType::Uint),
    ),
    (
        "usint_to_udint",
        Keyword::Convert(IlType::Usint, IlType::Udint),
    ),
    ("uint_to_sint", Keyword::Convert(IlType::Uint, IlType::Sint)),
    ("uint_to_int", Keyword::Convert(IlType::Uint, IlType::Int)),
    ("uint_to_dint", Keyword::Convert(IlType::Uint, IlType::Dint)),
    ("uint_to_lint", Keyword::Convert(IlType::Uint, IlType::Lint)),
    (
        "uint_to_usint",
        Keyword::Convert(IlType::Uint, IlType::Usint),
    ),
    (
        "uint_to_udint",
        Keyword::Convert(IlType::Uint, IlType::Udint),
    ),
    (
        "udint_to_sint",
        Keyword::Convert(IlType::Udint, IlType::Sint),
    ),
    ("udint_to_int", Keyword::Convert(IlType::Udint, IlType::Int)),
    (
        "udint_to_dint",
        Keyword::Convert(IlType::Udint, IlType::Dint),
    ),
    (
        "udint_to_lint",
        Keyword::Convert(IlType::Udint, IlType::Lint),
    ),
    (
        "udint_to_usint",
        Keyword::Convert(IlType::Udint, IlType::Usint),
    ),
    (
        "udint_to_uint",
        Keyword::Convert(IlType::Udint, IlType::Uint),
    ),
];

/// The token that a word in lower case is; none where it is no name.
pub(crate) fn token_of_word(word: &[u8]) -> Option<Token>
    ensures { result ≡ word_token word.now }
{
    match find_keyword(word) {
        Some(keyword) => Some(Token::Keyword(keyword)),
        None => match Name::from_bytes(word) {
            Some(name) => Some(Token::Name(name)),
            None => None,
        },
    }
}

/// The meaning of a word in lower case, where it has one of its own.
pub(crate) fn find_keyword(word: &[u8]) -> Option<Keyword>
    ensures { result ≡ keyword word.now }
{
    match find_word(word, &PLAIN_WORDS) {
        Some(keyword) => Some(keyword),
        None => find_word(word, &CONVERSIONS),
    }
}

fn find_word(word: &[u8], words: &[(&str, Keyword)]) -> Option<Keyword>
    ensures { result ≡ look_up word.now (map (λ e. (e.0.now, e.1)) words.now) }
{
    let mut rest = words;
    while let [(known, keyword), after @ ..] = rest {
        if word == known.as_bytes() {
            return Some(*keyword);
        }
        rest = after;
    }
    None
}
