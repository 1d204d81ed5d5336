//! Which set values change.
ghost use Rattle.std.specs.Prelude.{◌≡◌, length, IfOk, IsTrue, IsFalse};
ghost use Rattle.service_texts.specs.Changing.{IsNext};

use std::alloc::{AllocError, Global};

/// What is set, for each of a site's tags, as far as it was told.
#[derive(Drop)]
pub struct KnownSettings {
    numbers: Vec<Option<i64>>,
}

/// A set value that changed.
#[derive(Clone, Copy)]
pub struct Change {
    /// The number of the tag.
    pub tag: usize,
    pub before: Option<i64>,
    pub after: Option<i64>,
}

impl KnownSettings {
    /// These are told, or needn't be.
    pub fn new(alloc: Global, settings: &[Option<i64>]) -> Result<KnownSettings, AllocError>
        ensures { IfOk result (λ known. known.numbers.items ≡ settings.now) }
    {
        let mut numbers = Vec::with_capacity(alloc, settings.len())?;
        numbers.extend_from_slice(settings)?;
        Ok(KnownSettings { numbers })
    }

    /// The first of the tags that are set to something else than was told; from now on that is told. None where what is set
    /// is what was told, or is for other tags.
    pub fn next_change(&mut self, settings: &[Option<i64>]) -> Option<Change>
        ensures { length settings.now ≡ length self.old.numbers.items → IsNext self.old.numbers.items settings.now result self.new.numbers.items }
    {
        if self.numbers.len() != settings.len() {
            return None;
        }
        for (tag, after) in settings.iter().enumerate() {
            let before = self.numbers[tag];
            if is_other(before, *after) {
                self.numbers[tag] = *after;
                return Some(Change {
                    tag,
                    before,
                    after: *after,
                });
            }
        }
        None
    }
}

fn is_other(before: Option<i64>, after: Option<i64>) -> bool
    ensures other { IsTrue result → before ≡ after → ⊥ }
    ensures same { IsFalse result → before ≡ after }
{
    match (before, after) {
        (None, None) => false,
        (Some(before), Some(after)) => before != after,
        _ => true,
    }
}
