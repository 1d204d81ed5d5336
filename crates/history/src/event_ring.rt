//! The lines that were told last.
ghost use Rattle.std.specs.Prelude.{◌≡◌, ℕ, ◌+◌, ◌<◌, ◌≤◌, List, [], ◌∷◌, ◌++◌, length, map, All, IfOk, IsSome, IfSome};
ghost use Rattle.std.specs.VecDeque.{deque_capacity};
ghost use Rattle.history.specs.Events.{HasRoom, IsLineOf, Line, line_of};
ghost use Rattle.history.specs.Steps.{last};

use crate::event::Event;
use std::alloc::{AllocError, Global};
use std::collections::VecDeque;
use std::marker::Model;

/// How many lines are kept.
const EVENTS: usize = 256;

/// The last 256 lines that were told. Memory is taken once, by `new`.
#[derive(Drop)]
pub struct EventRing {
    /// The lines, the earliest first.
    kept: VecDeque<Event>,
    /// Rooms that have no line so far.
    free: Vec<Event>,
}

impl Model for EventRing {
    ghost use Rattle.std.specs.Prelude.{◌≡◌, ◌+◌, ◌≤◌, List, length, map, All};
    ghost use Rattle.std.specs.VecDeque.{deque_capacity};
    ghost use Rattle.history.specs.Events.{HasRoom, Line, line_of};

    ghost Value = { List Line };

    ghost view = { λ ring. map line_of ring.kept.items };

    ghost invariant = { λ ring. All HasRoom ring.kept.items × All HasRoom ring.free.items × (length ring.kept.items + length ring.free.items ≡ 256) × (256 ≤ deque_capacity ring.kept) };
}

impl EventRing {
    /// No line was told so far.
    pub fn new(alloc: Global) -> Result<EventRing, AllocError>
        ensures { IfOk result (λ ring. ring ≡ []) }
    {
        let kept = VecDeque::with_capacity(alloc, EVENTS)?;
        let free = free_rooms(alloc, EVENTS)?;
        Ok(EventRing { kept, free })
    }

    /// One line more, of this number; where that is one too many, the earliest one is given up.
    pub fn tell(&mut self, number: u64, time: &str, text: &str)
        ensures { (line : Line) × IsLineOf number time.now text.now line × (self.new ≡ last 256 (self.old ++ line ∷ [])) }
    {
        let Some(event) = next_room(&mut self.kept, &mut self.free) else {
            return;
        };
        let mut event = event;
        event.tell(number, time, text);
        push_event(&mut self.kept, event);
    }

    /// The lines, the earliest first, in two parts.
    pub(crate) fn parts(&self) -> (&[Event], &[Event])
        ensures { map line_of (result.0.now ++ result.1.now) ≡ self.now }
    {
        self.kept.as_slices()
    }
}

/// Appends a line where there is a place for it.
fn push_event(kept: &mut VecDeque<Event>, event: Event)
    requires { length kept.old.items < deque_capacity kept.old }
    ensures items { kept.new.items ≡ kept.old.items ++ event ∷ [] }
    ensures room { deque_capacity kept.new ≡ deque_capacity kept.old }
{
    let _ = kept.push_back(event);
}

/// So many rooms for lines.
fn free_rooms(alloc: Global, count: usize) -> Result<Vec<Event>, AllocError>
    ensures rooms { IfOk result (λ rooms. All HasRoom rooms.items) }
    ensures count { IfOk result (λ rooms. length rooms.items ≡ count) }
{
    let mut rooms = Vec::with_capacity(alloc, count)?;
    for _ in 0..count {
        rooms.push(Event::room(alloc)?)?;
    }
    Ok(rooms)
}

/// The room for the next line: a free one, or that of the earliest line.
fn next_room(kept: &mut VecDeque<Event>, free: &mut Vec<Event>) -> Option<Event>
    requires rooms { All HasRoom kept.old.items × All HasRoom free.old.items }
    requires count { length kept.old.items + length free.old.items ≡ 256 }
    requires room { 256 ≤ deque_capacity kept.old }
    ensures some { IsSome result }
    ensures given { IfSome result HasRoom }
    ensures kept { kept.new.items ≡ last 255 kept.old.items }
    ensures rooms { All HasRoom kept.new.items × All HasRoom free.new.items }
    ensures count { length kept.new.items + length free.new.items ≡ 255 }
    ensures room { 256 ≤ deque_capacity kept.new }
{
    match free.pop() {
        Some(room) => Some(room),
        None => kept.pop_front(),
    }
}
