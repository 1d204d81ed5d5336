//! A line that was told.
ghost use Rattle.std.specs.Prelude.{◌≡◌, ◌≤◌, string_bytes, IfOk};
ghost use Rattle.std.specs.String.{string_capacity};
ghost use Rattle.history.specs.Events.{HasRoom, IsLineOf, IsShownIn, line_of};

use crate::rooms::put_text;
use std::alloc::{AllocError, Global};

/// The most bytes of a time.
const TIME: usize = 24;

/// The most bytes of a line.
const LINE: usize = 256;

/// A line that was told, in room that is taken once.
#[derive(Drop)]
pub(crate) struct Event {
    /// Its number among all lines that were told, from 1.
    pub number: u64,
    /// When it was told.
    pub time: String,
    pub text: String,
}

impl Event {
    /// The room for one.
    pub(crate) fn room(alloc: Global) -> Result<Event, AllocError>
        ensures { IfOk result HasRoom }
    {
        Ok(Event {
            number: 0,
            time: String::with_capacity(alloc, TIME)?,
            text: String::with_capacity(alloc, LINE)?,
        })
    }

    /// A line, in place of what was there.
    pub(crate) fn tell(&mut self, number: u64, time: &str, text: &str)
        requires { HasRoom self.old }
        ensures room { HasRoom self.new }
        ensures line { IsLineOf number time.now text.now (line_of self.new) }
    {
        self.number = number;
        put_text(&mut self.time, TIME, time);
        put_text(&mut self.text, LINE, text);
    }
}
