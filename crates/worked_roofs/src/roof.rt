//! A site and what happens there, as a case tells it.
use crate::fault::{Played, RoofFault};
use crate::span::{TimeSpan, number};
use std::alloc::Global;

/// What stands at the other end of a link.
#[derive(Clone, Copy, PartialEq, Eq)]
pub(crate) enum RoofKind {
    /// A logger that answers for each unit by itself.
    Logger,
    /// A logger that answers exception 0B at once for a silent unit.
    Telling,
    /// A gateway that takes one request after another; a silent unit blocks it.
    Serial,
    /// The same, and then exception 0B comes.
    SerialTelling,
    /// A device by itself.
    Alone,
}

/// Units of a link by their numbers: from one to another, both included, each so many.
#[derive(Clone, Copy)]
pub(crate) struct Which {
    from: u64,
    to: u64,
    step: u64,
}

/// A unit of a link.
#[derive(Drop)]
pub(crate) struct Unit {
    /// How long a reply takes, in milliseconds.
    pub(crate) reply: u64,
    /// By how many percent it may be shorter or longer.
    pub(crate) jitter: u64,
    /// How long the reply to a write takes, in percent of other replies.
    pub(crate) write: u64,
    /// When it answers nothing, in order.
    pub(crate) silent: Vec<TimeSpan>,
}

/// A link and its units, of which the first one has the number 1.
#[derive(Drop)]
pub(crate) struct LinkText {
    pub(crate) kind: RoofKind,
    /// How long a silent unit blocks a serial gateway.
    pub(crate) blocks: u64,
    /// After how long without a byte the other end closes the connection; 0 for never.
    pub(crate) idle: u64,
    /// How many models of each unit are read, 1 or 2.
    pub(crate) reads: u64,
    /// How many outputs each unit has, 1 or 2.
    pub(crate) outputs: u64,
    /// When no connection can be made, in order; one that stands ends at the beginning.
    pub(crate) down: Vec<TimeSpan>,
    pub(crate) units: Vec<Unit>,
}

/// A case.
#[derive(Drop)]
pub(crate) struct Roof<'a> {
    pub(crate) name: &'a str,
    pub(crate) period: u64,
    pub(crate) timeout: u64,
    pub(crate) rounds: u64,
    /// Before this time no gap between writes counts.
    pub(crate) settle: u64,
    pub(crate) seed: u64,
    /// Not 0: each span in which a unit lives has a line.
    pub(crate) each: u64,
    pub(crate) links: Vec<LinkText>,
}

impl RoofKind {
    /// The kind that a word names.
    pub(crate) fn read(word: &str) -> Played<RoofKind> {
        match word {
            "par" => Ok(RoofKind::Logger),
            "exc" => Ok(RoofKind::Telling),
            "ser" => Ok(RoofKind::Serial),
            "ser0b" => Ok(RoofKind::SerialTelling),
            "one" => Ok(RoofKind::Alone),
            _ => Err(RoofFault::Line),
        }
    }

    /// The word that names it.
    pub(crate) fn word(self) -> &'static str {
        match self {
            RoofKind::Logger => "par",
            RoofKind::Telling => "exc",
            RoofKind::Serial => "ser",
            RoofKind::SerialTelling => "ser0b",
            RoofKind::Alone => "one",
        }
    }

    /// Whether no unit waits for another one.
    pub(crate) fn is_parallel(self) -> bool {
        matches!(self, RoofKind::Logger | RoofKind::Telling)
    }
}

impl Which {
    const ALL: Which = Which {
        from: 1,
        to: 64,
        step: 1,
    };

    /// Those that `FIRST..LAST` says, or `FIRST..LAST/STEP`.
    pub(crate) fn read(word: &str) -> Played<Which> {
        let (ends, step) = word.split_once("/").unwrap_or((word, "1"));
        let ends = TimeSpan::read(ends)?;
        Ok(Which {
            from: ends.from,
            to: ends.to,
            step: number(step)?,
        })
    }

    fn has(&self, number: u64) -> bool {
        let after = number.saturating_sub(self.from);
        self.from <= number && number <= self.to && after.checked_rem(self.step) == Some(0)
    }
}

impl Unit {
    /// One that answers in 30 ms, always.
    fn new(alloc: Global) -> Unit {
        Unit {
            reply: 30,
            jitter: 0,
            write: 100,
            silent: Vec::new(alloc),
        }
    }

    /// Whether it answers at a time.
    pub(crate) fn lives_at(&self, at: u64) -> bool {
        !self.silent.iter().any(|span| span.has(at))
    }

    fn set(&mut self, key: &str, value: &str) -> Played<()> {
        match key {
            "reply" => self.reply = number(value)?,
            "jitter" => self.jitter = number(value)?,
            "write" => self.write = number(value)?,
            "silent" => self.silent.push(TimeSpan::read(value)?)?,
            _ => return Err(RoofFault::Line),
        }
        Ok(())
    }
}

impl LinkText {
    /// A link with so many units.
    pub(crate) fn new(alloc: Global, kind: RoofKind, units: u64) -> Played<LinkText> {
        let mut all = Vec::new(alloc);
        for _ in 0..units.min(64) {
            all.push(Unit::new(alloc))?;
        }
        Ok(LinkText {
            kind,
            blocks: 1000,
            idle: 0,
            reads: 2,
            outputs: 1,
            down: Vec::new(alloc),
            units: all,
        })
    }

    /// Sets what a key of the link's own line means; one of a unit means all of them.
    pub(crate) fn set(&mut self, key: &str, value: &str) -> Played<()> {
        match key {
            "blocks" => self.blocks = number(value)?,
            "idle" => self.idle = number(value)?,
            "reads" => self.reads = number(value)?,
            "outputs" => self.outputs = number(value)?,
            "down" => self.down.push(TimeSpan::read(value)?)?,
            _ => return self.set_units(Which::ALL, key, value),
        }
        Ok(())
    }

    /// Sets what a key of these units means.
    pub(crate) fn set_units(&mut self, which: Which, key: &str, value: &str) -> Played<()> {
        let mut number = 0u64;
        for unit in self.units.iter_mut() {
            number = number.saturating_add(1);
            if which.has(number) {
                unit.set(key, value)?;
            }
        }
        Ok(())
    }
}

impl<'a> Roof<'a> {
    /// A site without links.
    pub(crate) fn new(alloc: Global, name: &'a str) -> Roof<'a> {
        Roof {
            name,
            period: 1000,
            timeout: 1000,
            rounds: 60,
            settle: 0,
            seed: 1,
            each: 0,
            links: Vec::new(alloc),
        }
    }

    /// Sets what a key of its line means.
    pub(crate) fn set(&mut self, key: &str, value: u64) -> Played<()> {
        match key {
            "period" => self.period = value,
            "timeout" => self.timeout = value,
            "rounds" => self.rounds = value,
            "settle" => self.settle = value,
            "seed" => self.seed = value,
            "each" => self.each = value,
            _ => return Err(RoofFault::Line),
        }
        Ok(())
    }

    /// When it ends.
    pub(crate) fn end(&self) -> u64 {
        self.rounds.saturating_mul(self.period)
    }
}
