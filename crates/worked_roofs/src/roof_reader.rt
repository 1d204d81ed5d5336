//! From lines to cases.
use crate::fault::{Played, RoofFault};
use crate::roof::{LinkText, Roof, RoofKind, Which};
use crate::span::{needed, number};
use std::alloc::Global;

/// Before a case's name.
const HEADLINE: &str = "=== ";

/// What the keys of a line belong to.
#[derive(Clone, Copy)]
enum ReaderPlace {
    Site,
    /// The last link.
    Link,
    /// These units of the last link.
    Units(Which),
}

/// Cases, while their lines are read.
#[derive(Drop)]
pub(crate) struct RoofReader<'a> {
    alloc: Global,
    roofs: Vec<Roof<'a>>,
}

impl<'a> RoofReader<'a> {
    /// No case so far.
    pub(crate) fn new(alloc: Global) -> RoofReader<'a> {
        RoofReader {
            alloc,
            roofs: Vec::new(alloc),
        }
    }

    /// The cases.
    pub(crate) fn roofs(&self) -> &[Roof<'a>] {
        self.roofs.as_slice()
    }

    /// Takes a line.
    pub(crate) fn take(&mut self, line: &'a str) -> Played<()> {
        if let Some(name) = line.strip_prefix(HEADLINE) {
            self.roofs.push(Roof::new(self.alloc, name))?;
            return Ok(());
        }
        let words: Vec<&str> = line.split_whitespace().collect(self.alloc)?;
        match words.as_slice() {
            [] => Ok(()),
            [word, ..] if word.starts_with("#") => Ok(()),
            [word, rest @ ..] => self.take_words(*word, rest),
        }
    }

    fn take_words(&mut self, word: &str, rest: &[&str]) -> Played<()> {
        match (word, rest) {
            ("site", pairs) => self.set_all(ReaderPlace::Site, pairs),
            ("link", [kind, units, pairs @ ..]) => {
                self.begin_link(RoofKind::read(*kind)?, number(*units)?)?;
                self.set_all(ReaderPlace::Link, pairs)
            }
            ("units", [which, pairs @ ..]) => {
                self.set_all(ReaderPlace::Units(Which::read(*which)?), pairs)
            }
            _ => Err(RoofFault::Line),
        }
    }

    fn begin_link(&mut self, kind: RoofKind, units: u64) -> Played<()> {
        let link = LinkText::new(self.alloc, kind, units)?;
        needed(self.roofs.last_mut())?.links.push(link)?;
        Ok(())
    }

    /// Takes keys with their values.
    fn set_all(&mut self, place: ReaderPlace, pairs: &[&str]) -> Played<()> {
        let mut rest = pairs;
        for _ in 0..pairs.len() {
            let [key, value, more @ ..] = rest else {
                break;
            };
            self.set(place, *key, *value)?;
            rest = more;
        }
        match rest.is_empty() {
            true => Ok(()),
            false => Err(RoofFault::Line),
        }
    }

    fn set(&mut self, place: ReaderPlace, key: &str, value: &str) -> Played<()> {
        let roof = needed(self.roofs.last_mut())?;
        match place {
            ReaderPlace::Site => roof.set(key, number(value)?),
            ReaderPlace::Link => needed(roof.links.last_mut())?.set(key, value),
            ReaderPlace::Units(which) => needed(roof.links.last_mut())?.set_units(
                which, key, value,
            ),
        }
    }
}
