//! What is found at an entry of a file: a key, what stands there, and the rule that it breaks.
use file_keys::{numbers_in, text_at, texts_in};
use model_defs::ModelDef;
use toml::Value;

/// An entry as it is named: a section that stands once, one of a list by its name and its number from 1, or by the number
/// alone.
#[derive(Clone, Copy)]
pub enum EntryName<'a> {
    Alone(&'static str),
    Named(&'static str, &'a str, usize),
    Numbered(&'static str, usize),
    /// An entry's own list: its number there, and the entry with its number.
    Inner(&'static str, usize, &'static str, usize),
}

/// What stands at a key.
#[derive(Clone, Copy)]
pub enum Stands<'a> {
    Nothing,
    Text(&'a str),
    Number(i64),
    Float(f64),
    Truth(bool),
    /// Something else, by its kind.
    Other(&'static str),
}

/// What may stand at a key.
#[derive(Clone, Copy)]
pub enum ValueKind {
    Text,
    Number,
    /// A number within these limits.
    Within(i64, i64),
    TextOrNumber,
    /// True or false.
    Truth,
    Texts,
    Numbers,
    List,
    /// A table, which a section in one pair of brackets makes.
    Table,
    /// A list of tables, which a section in two brackets makes.
    Tables,
    /// An object of a JSON text.
    Object,
    /// A list of such objects.
    Objects,
}

/// The rule that is broken.
#[derive(Clone, Copy)]
pub enum Rule<'a> {
    /// The key is needed.
    Missing,
    /// Something of another kind stands there.
    Unlike(ValueKind),
    /// It in words, after the key and what stands there.
    Words(&'static str),
    /// A number outside these limits.
    Within(i64, i64),
    /// A number outside those that a point has room for.
    Holds(i128, i128),
    /// A text of more bytes than a point has room for.
    HasRoom(usize),
    /// A number over that at another key.
    Over(&'static str, i64),
    /// A number under that at another key.
    Under(&'static str, i64),
    /// The name of no point of the model with this number.
    NoPointOf(i64),
    /// A list of more than so many entries.
    Longer(usize),
    /// What another entry has already: the words before that one's name.
    Repeats(&'static str, EntryName<'a>),
}

/// What may be meant by what stands at a key.
#[derive(Clone, Copy)]
pub enum Meant<'a> {
    Nothing,
    Name(&'a str),
    /// A model, of these definitions, that has a point of this name.
    ModelWith(&'a [ModelDef], &'a str),
}

/// A key, what stands there, the rule that it breaks, and what to do about it where that isn't what the kind of the fault
/// says.
#[derive(Clone, Copy)]
pub struct Finding<'a> {
    pub key: &'static str,
    pub stands: Stands<'a>,
    pub rule: Rule<'a>,
    /// What to do; None for what the rule or the fault says.
    pub help: Option<&'static str>,
    pub meant: Meant<'a>,
}

impl<'a> Finding<'a> {
    /// What stands at a key, which breaks a rule.
    pub fn by(key: &'static str, stands: Stands<'a>, rule: Rule<'a>) -> Finding<'a> {
        Finding {
            key,
            stands,
            rule,
            help: None,
            meant: Meant::Nothing,
        }
    }

    /// What stands at a key of a table, which breaks a rule in words.
    pub fn at(entry: &'a Value, key: &'static str, words: &'static str) -> Finding<'a> {
        Finding::by(key, stands_at(entry, key), Rule::Words(words))
    }

    /// The same, with words of what to do.
    pub fn advised(
        entry: &'a Value,
        key: &'static str,
        words: &'static str,
        help: &'static str,
    ) -> Finding<'a> {
        Finding::at(entry, key, words).helped(help)
    }

    /// What stands at a key of a table, and what another entry has already: the words before that one's name.
    pub fn repeating(
        entry: &'a Value,
        key: &'static str,
        words: &'static str,
        other: EntryName<'a>,
    ) -> Finding<'a> {
        Finding::by(key, stands_at(entry, key), Rule::Repeats(words, other))
    }

    /// A rule in words for a key at which nothing is shown.
    pub fn of(key: &'static str, words: &'static str) -> Finding<'a> {
        Finding::by(key, Stands::Nothing, Rule::Words(words))
    }

    /// A key that is needed and missing.
    pub fn missing(key: &'static str) -> Finding<'a> {
        Finding::by(key, Stands::Nothing, Rule::Missing)
    }

    /// The same with words of what to do.
    pub fn helped(self, help: &'static str) -> Finding<'a> {
        Finding {
            help: Some(help),
            ..self
        }
    }

    /// The same with the name that may be meant.
    pub fn meaning(self, meant: Option<&'a str>) -> Finding<'a> {
        let meant = match meant {
            Some(name) => Meant::Name(name),
            None => Meant::Nothing,
        };
        Finding { meant, ..self }
    }

    /// The same with the models that may be meant: those of these definitions with a point of this name.
    pub fn meaning_models(self, defs: &'a [ModelDef], point: &'a str) -> Finding<'a> {
        Finding {
            meant: Meant::ModelWith(defs, point),
            ..self
        }
    }
}

/// The name of the entry of a section with that number, from 0: the text at its key `name` and its number from 1, or else
/// that number alone.
pub fn named_entry<'a>(section: &'static str, entry: &'a Value, number: usize) -> EntryName<'a> {
    entry_named(section, text_at(entry, "name"), number)
}

/// The name of an entry by its own one, where it has one, and its number from 0.
pub fn entry_named<'a>(
    section: &'static str,
    name: Option<&'a str>,
    number: usize,
) -> EntryName<'a> {
    let number = number.saturating_add(1);
    match name {
        Some(name) => EntryName::Named(section, name, number),
        None => EntryName::Numbered(section, number),
    }
}

/// What stands at a key of a table.
pub fn stands_at<'a>(entry: &'a Value, key: &str) -> Stands<'a> {
    match entry.get(key) {
        Some(value) => stands_for(value),
        None => Stands::Nothing,
    }
}

/// What a value is.
pub fn stands_for(value: &Value) -> Stands<'_> {
    if let Some(text) = value.as_str() {
        return Stands::Text(text);
    }
    if let Some(number) = value.as_integer() {
        return Stands::Number(number);
    }
    if let Some(number) = value.as_float() {
        return Stands::Float(number);
    }
    match value.as_bool() {
        Some(truth) => Stands::Truth(truth),
        None => Stands::Other(value.type_str()),
    }
}

/// Whether a value is of a kind.
pub(crate) fn is_of(value: &Value, kind: ValueKind) -> bool {
    match kind {
        ValueKind::Text => value.is_str(),
        ValueKind::Number | ValueKind::Within(_, _) => value.is_integer(),
        ValueKind::TextOrNumber => value.is_str() || value.is_integer(),
        ValueKind::Truth => value.as_bool().is_some(),
        ValueKind::Texts => texts_in(value).is_some(),
        ValueKind::Numbers => numbers_in(value).is_some(),
        ValueKind::List | ValueKind::Tables | ValueKind::Objects => value.is_array(),
        ValueKind::Table | ValueKind::Object => value.is_table(),
    }
}
