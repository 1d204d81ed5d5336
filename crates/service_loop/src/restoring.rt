//! What is set at the start.
ghost use Rattle.service_loop.specs.Setting.{SetsBy};

use crate::keeping::KeptState;
use crate::line_writer::LineWriter;
use crate::state_file::variables;
use gateway::{Core, DEPTH, has_lapsed};
use point_types::Name;
use service::Service;
use service_texts::{StateLine, kept_by, lapsed_line, left_out_setting_line, state_line, time_in};
use std::alloc::{AllocError, Global};
use std::io::Write;

/// The most letters of a line that are told.
const MOST_LETTERS: usize = 40;

/// Sets what the lines of the file say, each by a client's write, and tells of those that set nothing and keep no variable.
pub(crate) fn restore<W: Write>(
    alloc: Global,
    state: &KeptState<'_, '_>,
    service: &mut Service,
    line_writer: &mut LineWriter<'_, W>,
) {
    for line in state.text.lines() {
        if !is_taken(service, state.retained, line) {
            line_writer.tell(left_out(alloc, line));
        }
    }
    tell_lapsed(alloc, service.core(), line_writer);
}

/// Tells what of the file was set too long ago to hold still.
fn tell_lapsed<W: Write>(alloc: Global, core: &Core<DEPTH>, line_writer: &mut LineWriter<'_, W>) {
    for (tag, age) in core.site().tags().iter().zip(core.ages()) {
        if has_lapsed(tag.lapse, *age) {
            line_writer.tell(lapsed_line(alloc, tag.name.as_str()));
        }
    }
}

/// Takes what a line says; whether it is something: the number with which a variable began, time that went by, or what a
/// client could set.
fn is_taken(service: &mut Service, retained: &[Name], line: &str) -> bool {
    if let Some(ms) = time_in(line) {
        service.pass(ms);
        return true;
    }
    kept_by(variables(service.core()), retained, line).is_some() || is_restored(service, line)
}

/// Sets what a line sets; whether that is something that a client could set.
fn is_restored(service: &mut Service, line: &str) -> bool {
    let line = state_line(service.core().site().tags(), line);
    is_set(service, line)
}

/// Sets what a line sets, to just its number; whether it does, as a client's write could.
fn is_set(service: &mut Service, line: StateLine) -> bool
    ensures { SetsBy line service.old.cycle.core.value result service.new.cycle.core.value }
{
    match line {
        StateLine::Sets { tag, number } => service.restore(tag, number),
        StateLine::NoSetting | StateLine::NoTag => false,
    }
}

fn left_out(alloc: Global, line: &str) -> Result<String, AllocError> {
    let shown = shown(alloc, line)?;
    left_out_setting_line(alloc, shown.as_str())
}

/// The beginning of a text, with nothing in it that moves what stands after it.
fn shown(alloc: Global, text: &str) -> Result<String, AllocError> {
    let mut shown = String::new(alloc);
    for (number, letter) in text.chars().enumerate() {
        if number >= MOST_LETTERS {
            shown.push_str("..")?;
            return Ok(shown);
        }
        shown.push(if letter.is_control() { '?' } else { letter })?;
    }
    Ok(shown)
}
