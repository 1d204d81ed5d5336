//! What is answered of the last hour.
ghost use Rattle.std.specs.Prelude.{◌≡◌, ◌++◌, false, map, string_bytes, IfOk, OnOk};
ghost use Rattle.std.specs.Fmt.{decimal};
ghost use Rattle.history.specs.Events.{line_of};
ghost use Rattle.history.specs.Told.{comma_if, is_later, joined, line_text, quoted, texts_after};

use crate::asked::Asked;
use crate::event::Event;
use crate::event_ring::EventRing;
use crate::quantities::Quantities;
use serde_json::Value;
use std::alloc::{AllocError, Global};

/// The last hour, as it is now.
#[derive(Clone, Copy)]
pub struct LastHour<'a> {
    pub alloc: Global,
    pub quantities: &'a Quantities,
    pub events: &'a EventRing,
    /// How many lines were told.
    pub told: u64,
    /// The time of day.
    pub time: &'a str,
}

impl LastHour<'_> {
    /// What the query of a request asks of it, as JSON.
    pub fn text(&self, query: &str) -> Result<String, AllocError> {
        let asked = Asked::of(self.alloc, query)?;
        let mut text = String::from_str(self.alloc, "{\"step\":10,\"count\":360,\"time\":")?;
        push_text(self.alloc, &mut text, self.time)?;
        write!(text, ",\"told\":{},\"series\":{{", self.told)?;
        self.push_series(&mut text, &asked)?;
        text.push_str("},\"events\":[")?;
        self.push_events(&mut text, asked.after)?;
        text.push_str("]}\n")?;
        Ok(text)
    }

    /// Appends those of the quantities that are asked for and known, each after its name.
    fn push_series(&self, text: &mut String, asked: &Asked) -> Result<(), AllocError> {
        let mut comma = "";
        for name in asked.names.iter() {
            if let Some(series) = self.quantities.named(name.as_str()) {
                text.push_str(comma)?;
                push_text(self.alloc, text, name.as_str())?;
                text.push_str(":")?;
                series.push_points(text)?;
                comma = ",";
            }
        }
        Ok(())
    }

    /// Appends the lines after a number, the earliest first.
    fn push_events(&self, text: &mut String, after: u64) -> Result<(), AllocError>
        ensures { OnOk result (string_bytes text.new ≡ string_bytes text.old ++ joined false (texts_after after self.now.events.now)) }
    {
        let (earlier, later) = self.events.parts();
        let more = push_lines(self.alloc, text, false, earlier, after)?;
        push_lines(self.alloc, text, more, later, after)?;
        Ok(())
    }
}

/// Appends those of some lines that come after a number, with commas between them, and before them where others stand there;
/// whether others stand before the next ones.
fn push_lines(
    alloc: Global,
    text: &mut String,
    later: bool,
    events: &[Event],
    after: u64,
) -> Result<bool, AllocError>
    ensures text { OnOk result (string_bytes text.new ≡ string_bytes text.old ++ joined later (texts_after after (map line_of events.now))) }
    ensures later { IfOk result (λ more. more ≡ is_later later (texts_after after (map line_of events.now))) }
{
    let mut later = later;
    for event in events {
        if after < event.number {
            push_comma(text, later)?;
            push_line(alloc, text, event)?;
            later = true;
        }
    }
    Ok(later)
}

fn push_comma(text: &mut String, later: bool) -> Result<(), AllocError>
    ensures { OnOk result (string_bytes text.new ≡ string_bytes text.old ++ comma_if later) }
{
    if later { text.push_str(",") } else { Ok(()) }
}

fn push_line(alloc: Global, text: &mut String, event: &Event) -> Result<(), AllocError>
    ensures { OnOk result (string_bytes text.new ≡ string_bytes text.old ++ line_text (line_of event.now)) }
{
    text.push_str("{\"n\":")?;
    push_count(text, event.number)?;
    text.push_str(",\"time\":")?;
    push_text(alloc, text, event.time.as_str())?;
    text.push_str(",\"text\":")?;
    push_text(alloc, text, event.text.as_str())?;
    text.push_str("}")
}

fn push_count(text: &mut String, count: u64) -> Result<(), AllocError>
    ensures { OnOk result (string_bytes text.new ≡ string_bytes text.old ++ decimal count) }
{
    write!(text, "{count}")?;
    Ok(())
}

/// Appends a text of JSON.
fn push_text(alloc: Global, text: &mut String, value: &str) -> Result<(), AllocError>
    ensures { OnOk result (string_bytes text.new ≡ string_bytes text.old ++ quoted value.now) }
{
    let value = Value::try_from_str(alloc, value)?.to_string(alloc)?;
    text.push_str(value.as_str())
}
