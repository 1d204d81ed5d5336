//! The keys of site files and plant files: the one list by which their entries are looked at, and by which the keys are
//! told that nothing reads.
use crate::finding::{Finding, Rule, ValueKind};
use std::alloc::{AllocError, Global};

/// When a key has to stand in an entry, and when it is looked at.
#[derive(Clone, Copy, PartialEq, Eq)]
pub(crate) enum Need {
    /// Always; it is looked at first, since it says what the entry is.
    First,
    /// Always.
    Always,
    /// It may be missing.
    Maybe,
    /// It may be missing, and is looked at last.
    Last,
    /// A rule of its own looks at it, or another reader.
    Elsewhere,
}

impl Need {
    /// Whether each entry has it.
    pub(crate) fn is_always(self) -> bool {
        matches!(self, Need::First | Need::Always)
    }

    /// Which of First, Always and Last says when it is looked at.
    pub(crate) fn turn(self) -> Need {
        match self {
            Need::Maybe => Need::Always,
            other => other,
        }
    }
}

/// A key: its name, what may stand there, and when it has to.
#[derive(Clone, Copy)]
pub(crate) struct Key(pub &'static str, pub ValueKind, pub Need);

impl Key {
    /// The same with a number within these limits.
    pub(crate) fn within(self, low: i64, high: i64) -> Key {
        let Key(name, _, need) = self;
        Key(name, ValueKind::Within(low, high), need)
    }
}

/// The keys of a kind of entry, in the order in which they are told.
#[derive(Clone, Copy)]
pub(crate) struct Section {
    pub keys: &'static [Key],
    /// What to do where one is missing; None for what the fault says.
    pub needs: Option<&'static str>,
}

impl Section {
    /// What was found at a key, with what to do where it is missing.
    pub(crate) fn advising<'a>(&self, finding: Finding<'a>) -> Finding<'a> {
        match (finding.rule, self.needs) {
            (Rule::Missing, Some(needs)) => finding.helped(needs),
            _ => finding,
        }
    }
}

// in both kinds of files

pub(crate) const UNIT: Key = Key("unit", ValueKind::Within(0, 255), Need::Always);

pub(crate) const BASE: Key = Key("base", ValueKind::Within(0, 65534), Need::Maybe);

const MODELS: Key = Key("models", ValueKind::Numbers, Need::Always);

const MODEL: Key = Key("model", ValueKind::Number, Need::Always);

const POINT: Key = Key("point", ValueKind::Text, Need::Always);

// site files

/// The most seconds in which a set point that a device has isn't written again.
pub(crate) const MOST_REWRITE: i64 = 3600;

pub(crate) const EXPONENT: Key = Key("exponent", ValueKind::Within(-10, 10), Need::Always);

pub(crate) const LAPSE: Key = Key("lapse", ValueKind::Within(1, 86_400), Need::Last);

const NAME: Key = Key("name", ValueKind::Text, Need::First);

const ACCESS: Key = Key("access", ValueKind::Text, Need::First);

const TYPE: Key = Key("type", ValueKind::Text, Need::First);

pub(crate) const LOW: Key = Key("low", ValueKind::Number, Need::Always);

pub(crate) const HIGH: Key = Key("high", ValueKind::Number, Need::Always);

pub(crate) const SITE: Section = Section {
    keys: &[
        Key("gateway", ValueKind::Table, Need::Elsewhere),
        Key("device", ValueKind::Tables, Need::Maybe),
        Key("tag", ValueKind::Tables, Need::Maybe),
        Key("served", ValueKind::Tables, Need::Maybe),
    ],
    needs: None,
};

pub(crate) const GATEWAY: Section = Section {
    keys: &[
        UNIT,
        BASE,
        MODELS,
        Key("name", ValueKind::Text, Need::Elsewhere),
        Key("retain", ValueKind::Texts, Need::Elsewhere),
    ],
    needs: Some("add it: the gateway needs unit and models"),
};

pub(crate) const DEVICE: Section = Section {
    keys: &[
        NAME,
        UNIT,
        BASE,
        Key("write", ValueKind::Number, Need::Maybe),
        Key("rewrite", ValueKind::Within(0, MOST_REWRITE), Need::Maybe),
        Key("address", ValueKind::Text, Need::Elsewhere),
        Key("remote_unit", ValueKind::Number, Need::Elsewhere),
        Key("sleeps", ValueKind::Number, Need::Elsewhere),
        Key("serial", ValueKind::Text, Need::Elsewhere),
        Key("maker", ValueKind::Text, Need::Elsewhere),
        Key("type", ValueKind::Text, Need::Elsewhere),
        Key("rated", ValueKind::Number, Need::Elsewhere),
    ],
    needs: Some("add it: a device needs name and unit"),
};

/// A tag on a point.
pub(crate) const TAG: Section = Section {
    keys: &[
        NAME,
        ACCESS,
        Key("device", ValueKind::Text, Need::Last),
        MODEL,
        POINT,
        TYPE,
        EXPONENT,
        LOW,
        HIGH,
        Key("default", ValueKind::Number, Need::Last),
        Key("bit", ValueKind::Number, Need::Last),
        Key("round", ValueKind::Text, Need::Last),
        LAPSE,
        Key("fit", ValueKind::Text, Need::Last),
        Key("with", ValueKind::Text, Need::Last),
        Key("read_back", ValueKind::Truth, Need::Elsewhere),
    ],
    needs: None,
};

/// A tag that is the time since the scan before.
pub(crate) const TIME_TAG: Section = Section {
    keys: &[NAME, ACCESS, TYPE, LOW, HIGH],
    needs: Some("add the key; a time tag needs name, access, type, low and high, and no other"),
};

pub(crate) const SERVED: Section = Section {
    keys: &[
        MODEL,
        POINT,
        Key("value", ValueKind::Number, Need::Maybe),
        Key("text", ValueKind::Text, Need::Maybe),
        Key("sum", ValueKind::Texts, Need::Maybe),
        Key("partial", ValueKind::Truth, Need::Maybe),
    ],
    needs: Some("add it: what is served needs model, point, and one of value, text and sum"),
};

// plant files

const KIND: Key = Key("kind", ValueKind::Text, Need::Maybe);

const WMAX: Key = Key("wmax", ValueKind::Within(0, 1_000_000), Need::Always);

const AVAILABLE: Key = Key("available", ValueKind::Numbers, Need::Always);

const SLOW: Key = Key("slow", ValueKind::Within(0, 60_000), Need::Maybe);

const VALUES: Key = Key("value", ValueKind::Tables, Need::Elsewhere);

pub(crate) const PLANT: Section = Section {
    keys: &[
        Key("device", ValueKind::Tables, Need::Maybe),
        Key("fault", ValueKind::Tables, Need::Maybe),
    ],
    needs: None,
};

/// An inverter that says what it is, or how fast its power changes.
pub(crate) const INVERTER: Section = Section {
    keys: &[
        KIND,
        UNIT,
        MODELS,
        WMAX,
        AVAILABLE,
        Key("ramp", ValueKind::Within(0, 1_000_000), Need::Maybe),
        BASE,
        SLOW,
        VALUES,
    ],
    needs: None,
};

/// Another inverter.
pub(crate) const PLAIN_INVERTER: Section = Section {
    keys: &[UNIT, MODELS, WMAX, AVAILABLE, BASE, SLOW, VALUES],
    needs: None,
};

pub(crate) const METER: Section = Section {
    keys: &[
        KIND,
        UNIT,
        MODELS,
        Key("load", ValueKind::Numbers, Need::Always),
        Key("behind", ValueKind::Numbers, Need::Always),
        BASE,
        SLOW,
        VALUES,
    ],
    needs: Some("add it: a meter needs unit, models, load and behind"),
};

/// A value of a device.
pub(crate) const VALUE: Section = Section {
    keys: &[MODEL, POINT, Key("raw", ValueKind::Number, Need::Always)],
    needs: Some("add it: a value needs model, point and raw"),
};

/// A fault; of its last four keys each kind has one, or none.
pub(crate) const FAULT: Section = Section {
    keys: &[
        REQUEST,
        Key("kind", ValueKind::Text, Need::Always),
        Key("code", ValueKind::Within(1, 255), Need::Elsewhere),
        Key("count", ValueKind::Within(1, 100), Need::Elsewhere),
        Key("word", ValueKind::Within(0, 65535), Need::Elsewhere),
        Key("bytes", ValueKind::Within(0, 259), Need::Elsewhere),
    ],
    needs: Some(
        "add it: a fault needs request and kind, and code, count, word or bytes where its kind has such a number",
    ),
};

pub(crate) const REQUEST: Key = Key("request", ValueKind::Within(1, 1_000_000), Need::Always);

/// The key of a name among some.
pub(crate) fn key_named(keys: &[Key], name: &str) -> Option<Key> {
    for key in keys {
        let Key(other, _, _) = *key;
        if other == name {
            return Some(*key);
        }
    }
    None
}

/// Whether a key of this name is among some.
pub(crate) fn has_key(keys: &[Key], name: &str) -> bool {
    key_named(keys, name).is_some()
}

/// The names of some keys.
pub(crate) fn names_of(alloc: Global, keys: &[Key]) -> Result<Vec<&'static str>, AllocError> {
    let mut names = Vec::new(alloc);
    for key in keys {
        let Key(name, _, _) = *key;
        names.push(name)?;
    }
    Ok(names)
}
