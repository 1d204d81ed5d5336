//! The words in which an entry, what stands at its keys and its rules are told.
use crate::finding::{EntryName, Rule, Stands, ValueKind};
use note_text::push_letter;
use std::alloc::{AllocError, Global};

/// The most letters of a text that are shown.
const MOST_LETTERS: usize = 40;

/// The name of an entry.
pub fn entry_shown(alloc: Global, entry: EntryName<'_>) -> Result<String, AllocError> {
    match entry {
        EntryName::Alone(section) => String::from_str(alloc, section),
        EntryName::Named(section, name, number) => named(alloc, section, name, number),
        EntryName::Numbered(section, number) => format!(in alloc; "{section} {number}"),
        EntryName::Inner(list, inner, section, number) => {
            format!(in alloc; "{section} {number}, {list} {inner}")
        }
    }
}

/// The name of an entry that has one, with its number: `[[tag]] inv1_w (the 1st)`.
fn named(alloc: Global, section: &str, name: &str, number: usize) -> Result<String, AllocError> {
    let mut text = String::from_str(alloc, section)?;
    text.push_str(" ")?;
    push_plain(&mut text, name)?;
    let ending = ending_of(number);
    let place = format!(in alloc; " (the {number}{ending})")?;
    text.push_str(place.as_str())?;
    Ok(text)
}

/// What makes a number an ordinal.
fn ending_of(number: usize) -> &'static str {
    let teens = number / 10 % 10 == 1;
    match number % 10 {
        1 if !teens => "st",
        2 if !teens => "nd",
        3 if !teens => "rd",
        _ => "th",
    }
}

/// What stands at a key; None for nothing.
pub(crate) fn stands_shown(
    alloc: Global,
    stands: Stands<'_>,
) -> Result<Option<String>, AllocError> {
    match stands {
        Stands::Nothing => Ok(None),
        Stands::Text(text) => quoted(alloc, text).map(Some),
        Stands::Number(number) => format!(in alloc; "{number}").map(Some),
        Stands::Float(number) => float_shown(alloc, number).map(Some),
        Stands::Truth(truth) => format!(in alloc; "{truth}").map(Some),
        Stands::Other(kind) => format!(in alloc; "({kind})").map(Some),
    }
}

/// A float, with a point where it is a whole number.
fn float_shown(alloc: Global, number: f64) -> Result<String, AllocError> {
    let mut text = format!(in alloc; "{number}")?;
    if text
        .chars()
        .all(|letter| letter == '-' || letter.is_ascii_digit())
    {
        text.push_str(".0")?;
    }
    Ok(text)
}

fn quoted(alloc: Global, text: &str) -> Result<String, AllocError> {
    let mut quoted = String::from_str(alloc, "\"")?;
    push_plain(&mut quoted, text)?;
    quoted.push_str("\"")?;
    Ok(quoted)
}

/// The rule, as it is told after what breaks it.
pub(crate) fn rule_shown(alloc: Global, rule: Rule<'_>) -> Result<String, AllocError> {
    match rule {
        Rule::Missing => String::from_str(alloc, "is missing"),
        Rule::Unlike(kind) => String::from_str(alloc, other_than(kind)),
        Rule::Words(words) => String::from_str(alloc, words),
        Rule::Within(low, high) => format!(in alloc; "is not in {low}..{high}"),
        Rule::Holds(low, high) => {
            format!(in alloc; "can't be encoded in its point, which holds {low}..{high}")
        }
        Rule::HasRoom(most) => format!(in alloc;
            "is longer than its point, which has {most} bytes"
        ),
        Rule::Over(key, number) => format!(in alloc; "is over {key} = {number}"),
        Rule::Under(key, number) => format!(in alloc; "is under {key} = {number}"),
        Rule::NoPointOf(model) => format!(in alloc; "is no point of model {model}"),
        Rule::Longer(most) => format!(in alloc; "has more than {most} entries"),
        Rule::Repeats(words, entry) => repeating(alloc, words, entry),
    }
}

fn repeating(alloc: Global, words: &str, entry: EntryName<'_>) -> Result<String, AllocError> {
    let entry = entry_shown(alloc, entry)?;
    format!(in alloc; "{words} {entry}")
}

fn other_than(kind: ValueKind) -> &'static str {
    match kind {
        ValueKind::Text => "is no text",
        ValueKind::Number | ValueKind::Within(_, _) => "is no whole number",
        ValueKind::TextOrNumber => "is neither a text nor a whole number",
        ValueKind::Truth => "is neither true nor false",
        ValueKind::Texts => "is no list of texts",
        ValueKind::Numbers => "is no list of whole numbers",
        ValueKind::List => "is no list",
        ValueKind::Table => "is no table",
        ValueKind::Tables => "is no list of tables",
        ValueKind::Object => "is no object",
        ValueKind::Objects => "is no list of objects",
    }
}

/// What is wrong, where the rule says it more closely than the kind of the fault.
pub(crate) fn meaning_of(rule: Rule<'_>) -> Option<&'static str> {
    match rule {
        Rule::Missing => Some("a key is missing"),
        Rule::Unlike(_) => Some("the value of a key is of another kind"),
        _ => None,
    }
}

/// What to do, where the rule says it more closely than the kind of the fault; `{}` stands for the key.
pub(crate) fn help_of(rule: Rule<'_>) -> Option<&'static str> {
    match rule {
        Rule::Unlike(kind) => Some(help_for(kind)),
        Rule::Within(_, _) | Rule::Holds(_, _) => Some("write a number within these limits"),
        Rule::HasRoom(_) => Some("shorten the text"),
        _ => None,
    }
}

fn help_for(kind: ValueKind) -> &'static str {
    match kind {
        ValueKind::Text => "write a text in quotes",
        ValueKind::Number | ValueKind::Within(_, _) => {
            "write a whole number, without quotes and without a point"
        }
        ValueKind::TextOrNumber => "write a text in quotes, or a whole number",
        ValueKind::Truth => "write true or false, without quotes",
        ValueKind::Texts => "write a list of texts in quotes, as [\"a\", \"b\"]",
        ValueKind::Numbers => "write a list of whole numbers, as [1, 103]",
        ValueKind::List => "write a list, in square brackets",
        ValueKind::Table => "begin it with [{}], in one pair of brackets, once",
        ValueKind::Tables => "begin each entry with [[{}]], in two pairs of brackets",
        ValueKind::Object => "write an object, in curly brackets",
        ValueKind::Objects => "write a list of objects, each in curly brackets",
    }
}

/// Appends the beginning of a text, with control characters escaped.
fn push_plain(line: &mut String, text: &str) -> Result<(), AllocError> {
    for (number, letter) in text.chars().enumerate() {
        if number >= MOST_LETTERS {
            return line.push_str("..");
        }
        push_letter(line, letter)?;
    }
    Ok(())
}
