//! The values that input lines give to a program's inputs.
ghost use Rattle.std.specs.Prelude.{◌≡◌, ◌≤◌, ◌<◌, ◌+◌, ◌∷◌, List, ℕ, IfErr, IfOk, IfSome, None, Ok, Err, Some, length, map, slice_get};
ghost use Rattle.std.specs.Bool.{MatchBool};
ghost use Rattle.commands.specs.Input.{before_end, lines_of};
ghost use Rattle.commands.specs.Given as given;

use crate::input::{before_end, is_blank_line, line_length};
use crate::number::value_of;
use point_types::{Cause, IlType, Items, Name, Reading};
use scan_code::Tag;
use std::alloc::{AllocError, Global};

/// What an input line gives: the place of its input among the tags, and its reading.
#[derive(Clone, Copy)]
pub struct GivenEntry {
    pub place: usize,
    pub reading: Reading,
}

/// An input of which nothing is known.
const ABSENT: Reading = Reading::Absent(Cause::NoBlock);

/// A reading for each tag by the input lines, those that no line names absent; or the number of the
/// first line that is refused, counted from 1, blank lines aside. A line is refused where its form,
/// its name or its value isn't that of an input, or where an earlier one named the same input.
pub(crate) fn readings_given(
    alloc: Global,
    tags: &[Tag],
    lines: &[u8],
) -> Result<Result<Items<Reading>, usize>, AllocError>
    ensures { IfOk result (λ readings. readings ≡ given.readings_given tags.now (lines_of lines.now)) }
{
    let mut slots = no_slots(alloc, tags)?;
    match fill(&mut slots, tags, lines) {
        Ok(()) => {
            let readings = readings_in(alloc, &slots)?;
            Ok(Ok(Items::from_vec(readings)))
        }
        Err(number) => Ok(Err(number)),
    }
}

// Nothing is known of any tag.
fn no_slots(alloc: Global, tags: &[Tag]) -> Result<Vec<Option<Reading>>, AllocError>
    ensures { IfOk result (λ slots. slots.items ≡ given.no_slots tags.now) }
{
    tags.iter().map(|_| None).collect(alloc)
}

fn readings_in(alloc: Global, slots: &[Option<Reading>]) -> Result<Vec<Reading>, AllocError>
    ensures { IfOk result (λ readings. readings.items ≡ map given.reading_in slots.now) }
{
    slots.iter().map(|slot| reading_in(*slot)).collect(alloc)
}

fn reading_in(slot: Option<Reading>) -> Reading
    ensures { result ≡ given.reading_in slot }
{
    match slot {
        Some(reading) => reading,
        None => ABSENT,
    }
}

// Reads the lines; or the number of the first that is refused.
fn fill(slots: &mut [Option<Reading>], tags: &[Tag], lines: &[u8]) -> Result<(), usize>
    requires { length slots.old ≡ length tags.now }
    ensures ok { IfOk result (λ _. given.slots_given tags.now slots.old 1 (lines_of lines.now) ≡ Ok slots.new) }
    ensures err { IfErr result (λ number. given.slots_given tags.now slots.old 1 (lines_of lines.now) ≡ Err number) }
{
    let mut number = 1;
    let mut rest = lines;
    while !rest.is_empty() {
        let (line, behind) = rest.split_at(line_length(rest));
        match read_line(slots, tags, line, number) {
            Ok(next) => number = next,
            Err(refused) => return Err(refused),
        }
        rest = behind;
    }
    Ok(())
}

// Reads the line of this number, and gives that of the next; or refuses the line.
fn read_line(
    slots: &mut [Option<Reading>],
    tags: &[Tag],
    line: &[u8],
    number: usize,
) -> Result<usize, usize>
    requires places { length slots.old ≡ length tags.now }
    requires few { number < usize.MAX }
    ensures next { IfOk result (λ next. next ≤ number + 1) }
    ensures ok { IfOk result (λ next. (more : List (List ℕ)) → given.slots_given tags.now slots.old number (line.now ∷ more) ≡ given.slots_given tags.now slots.new next more) }
    ensures err { IfErr result (λ refused. (more : List (List ℕ)) → given.slots_given tags.now slots.old number (line.now ∷ more) ≡ Err refused) }
{
    if is_blank_line(line) {
        Ok(number)
    } else if join(slots, tags, before_end(line)) {
        Ok(number + 1)
    } else {
        Err(number)
    }
}

// Puts what a line gives into the place of its input, where nothing stands there yet.
fn join(slots: &mut [Option<Reading>], tags: &[Tag], line: &[u8]) -> bool
    requires { length slots.old ≡ length tags.now }
    ensures { MatchBool result (given.line_given tags.now slots.old line.now ≡ Some slots.new) (given.line_given tags.now slots.old line.now ≡ None) }
{
    let Some(entry) = entry_of(tags, line) else {
        return false;
    };
    match slots[entry.place] {
        None => {
            slots[entry.place] = Some(entry.reading);
            true
        }
        Some(_) => false,
    }
}

// What a line without its end gives; none where it gives nothing to an input.
fn entry_of(tags: &[Tag], line: &[u8]) -> Option<GivenEntry>
    ensures entry { result ≡ given.entry_given tags.now line.now }
    ensures within { IfSome result (λ entry. entry.place < length tags.now) }
{
    let sign = equals_sign(line)?;
    let (before, rest) = line.split_at(sign);
    let name = Name::from_bytes(before)?;
    let place = input_place(tags, &name)?;
    let (_, value) = rest.split_at(1);
    match reading_of(tags[place].kind, value) {
        Some(reading) => Some(GivenEntry { place, reading }),
        None => None,
    }
}

/// Where the first equals sign stands.
pub(crate) fn equals_sign(line: &[u8]) -> Option<usize>
    ensures place { result ≡ given.equals_from 0 line.now }
    ensures within { IfSome result (λ i. i < length line.now) }
{
    let mut i = 0;
    let mut rest = line;
    while let [byte, behind @ ..] = rest {
        if *byte == b'=' {
            return Some(i);
        }
        i += 1;
        rest = behind;
    }
    None
}

/// Where the input of a name stands.
pub(crate) fn input_place(tags: &[Tag], name: &Name) -> Option<usize>
    ensures place { result ≡ given.input_from 0 tags.now name.now }
    ensures within { IfSome result (λ i. i < length tags.now) }
{
    let mut i = 0;
    let mut rest = tags;
    while let [tag, behind @ ..] = rest {
        if is_input(tag, name) {
            return Some(i);
        }
        i += 1;
        rest = behind;
    }
    None
}

fn is_input(tag: &Tag, name: &Name) -> bool
    ensures { result ≡ given.is_input tag.now name.now }
{
    !tag.output && tag.name.as_bytes() == name.as_bytes()
}

/// The reading of a type that a text spells.
pub(crate) fn reading_of(kind: IlType, text: &[u8]) -> Option<Reading>
    ensures { result ≡ given.reading_given kind text.now }
{
    if text == b"absent".as_slice() {
        return Some(ABSENT);
    }
    match value_of(kind, text) {
        Some(value) => Some(Reading::Value(value)),
        None => None,
    }
}
