//! The notes that weren't taken yet.
ghost use Rattle.std.specs.Prelude.{◌≡◌, [], IfOk};
ghost use Rattle.service.specs.Noting.{TakesOldest, told};

use crate::notice::Notice;
use std::alloc::{AllocError, Global};
use std::collections::VecDeque;

/// Notes, the oldest first. One that has no room is left out.
#[derive(Drop)]
pub struct Notices {
    items: VecDeque<Notice>,
}

impl Notices {
    /// Room for so many.
    pub fn new(alloc: Global, most: usize) -> Result<Notices, AllocError>
        ensures none { IfOk result (λ notes. notes.items.items ≡ []) }
        ensures room { IfOk result (λ notes. notes.items.cap ≡ most) }
    {
        let items = VecDeque::with_capacity(alloc, most)?;
        Ok(Notices { items })
    }

    /// This happened after the others.
    pub fn add(&mut self, note: Notice)
        ensures adds { self.new.items.items ≡ told note self.old }
        ensures room { self.new.items.cap ≡ self.old.items.cap }
    {
        if self.items.len() < self.items.capacity() {
            let _ = self.items.push_back(note);
        }
    }

    /// The oldest, which is taken.
    pub fn next(&mut self) -> Option<Notice>
        ensures oldest { TakesOldest self.old.items.items result self.new.items.items }
        ensures room { self.new.items.cap ≡ self.old.items.cap }
    {
        self.items.pop_front()
    }
}
