//! What is noted of a file that is refused.
use crate::refusal_note::RefusalNote;
use file_keys::{Placed, TomlFile};
use file_notes::{
    EntryPlace, FilePlace, Single, place_in_definition, place_in_plant, place_in_site,
};
use inverter_sim::{PlantFault, PlantPart};
use model_defs::{DefFault, ModelDef, read_placed};
use note_text::Mark;
use site_model::{SiteFault, SitePart};
use std::alloc::Global;

/// The cause of the fault of a site file, which was read over these definitions. Where memory for its place is refused,
/// it goes without.
pub(crate) fn cause_of_site(
    alloc: Global,
    file: &TomlFile<'_>,
    models: &[ModelDef],
    placed: Placed<SiteFault, SitePart>,
) -> RefusalNote {
    let mut cause = RefusalNote::no_site(alloc, placed.fault);
    let place = place_in_site(alloc, file, models, placed.part, placed.fault);
    put_place(&mut cause, file.text(), place);
    cause
}

/// The cause of the fault of a plant file, which was read over these definitions. Where memory for its place is refused,
/// it goes without.
pub(crate) fn cause_of_plant(
    alloc: Global,
    file: &TomlFile<'_>,
    models: &[ModelDef],
    placed: Placed<PlantFault, PlantPart>,
) -> RefusalNote {
    let mut cause = RefusalNote::no_plant(alloc, placed.fault);
    let place = place_in_plant(alloc, file, models, placed.part, placed.fault);
    put_place(&mut cause, file.text(), place);
    cause
}

/// The cause of a fault among definitions: that of the first text that is none. Where memory for its place is refused,
/// it goes without.
pub(crate) fn cause_of_definition(alloc: Global, defs: &[String], fault: DefFault) -> RefusalNote {
    for (number, text) in defs.iter().enumerate() {
        if let Err(placed) = read_placed(alloc, text.as_bytes()) {
            let mut cause = RefusalNote::undefined(alloc, number, fault);
            let place = place_in_definition(alloc, text.as_bytes(), placed.part, placed.fault);
            put_place(&mut cause, text.as_str(), place);
            return cause;
        }
    }
    RefusalNote::undefined(alloc, 0, fault)
}

/// Adds where in a text the fault was found.
fn put_place(cause: &mut RefusalNote, text: &str, place: Option<FilePlace>) {
    match place {
        Some(FilePlace::Text { line, column }) => put_position(cause, text, line, column),
        Some(FilePlace::Single(single)) => put_single(cause, single),
        Some(FilePlace::Entry(entry)) => put_entry(cause, entry),
        None => {}
    }
}

/// Puts the line and the column at which a text goes wrong. A place after the last line is the end of that one.
fn put_position(cause: &mut RefusalNote, text: &str, line: usize, column: usize) {
    let last = text.lines().count();
    cause.line = u32::try_from(line.min(last)).unwrap_or(0);
    cause.mark = if line > last {
        Mark::Behind
    } else {
        Mark::Column(column)
    };
}

/// Puts the line of a section in one pair of brackets, and what to do.
fn put_single(cause: &mut RefusalNote, single: Single) {
    cause.line = single.line;
    cause.mark = Mark::Line;
    cause.meaning = "the entries of a list stand in one pair of brackets";
    cause.help = "begin each entry with [[{}]], in two pairs of brackets";
    let _ = cause.name.push_str(single.section);
}

/// Puts the entry that breaks a rule, and what is told of it in place of the words of the fault.
fn put_entry(cause: &mut RefusalNote, entry: EntryPlace) {
    cause.detail = entry.shown;
    if let Some(meaning) = entry.meaning {
        cause.meaning = meaning;
    }
    if let Some(help) = entry.help {
        cause.help = help;
        cause.name = entry.name;
    }
}
