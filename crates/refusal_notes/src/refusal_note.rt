//! Why a command refuses, and the note that tells it on standard error.
use crate::explained::Explained;
use il_assemble::AsmFault;
use il_reader::{FaultPlace, Program, ReadFault, fault_at};
use inverter_sim::PlantFault;
use modbus_frame::LinkFault;
use model_defs::DefFault;
use note_text::{Mark, Note};
use program_notes::{
    FaultWords, ends_line, known_of_unassembled, line_inside, line_of_byte, mark_of_bytes,
    mark_of_unassembled, mark_of_unread, mark_of_unverified, told_of_unassembled, told_of_unread,
};
use scan_vm::TrapKind;
use site_model::SiteFault;
use std::alloc::{AllocError, Global};
use verifier::RefusalKind;

/// The file that a note is on.
#[derive(Clone, Copy, PartialEq, Eq, Debug)]
pub enum NotedFile {
    Program,
    Site,
    Plant,
    /// The definition of this number among those that are handed in.
    Definition(usize),
    /// No file, but the link to the devices.
    Link,
}

/// Why a command refuses: a place in a file, the kind of refusal, and what is known about it.
#[derive(Drop, Debug)]
pub struct RefusalNote {
    pub file: NotedFile,
    /// The line, counted from 1; 0 where the note is on the whole file.
    pub line: u32,
    /// What on the line is meant.
    pub mark: Mark,
    /// The kind as it is printed.
    pub kind: &'static str,
    pub meaning: &'static str,
    pub help: &'static str,
    /// The name that `{}` stands for in both.
    pub name: String,
    /// What is known there; empty where nothing is.
    pub detail: String,
}

impl RefusalNote {
    /// On account of a line of the program's text.
    fn of_line(alloc: Global, line: u32, mark: Mark, texts: RefusalTexts) -> RefusalNote {
        let RefusalTexts(kind, meaning, help) = texts;
        RefusalNote {
            file: NotedFile::Program,
            line,
            mark,
            kind,
            meaning,
            help,
            name: String::new(alloc),
            detail: String::new(alloc),
        }
    }

    /// On account of a whole file.
    fn of_file(alloc: Global, file: NotedFile, texts: RefusalTexts) -> RefusalNote {
        let mut cause = RefusalNote::of_line(alloc, 0, Mark::Line, texts);
        cause.file = file;
        cause
    }

    /// The text of the program can't be read.
    pub(crate) fn unread(alloc: Global, text: &str, fault: ReadFault) -> RefusalNote {
        let kind = fault.kind;
        let texts = RefusalTexts(kind.word(), kind.meaning(), kind.help());
        let mut cause = RefusalNote::of_line(alloc, fault.line, Mark::Line, texts);
        if let Some(place) = fault_at(alloc, text) {
            cause.mark_unread(text, place);
            if let Ok(Some(told)) = told_of_unread(alloc, text, place) {
                cause.mark_span(alloc, text, told.span);
                cause.take(told);
            }
        }
        cause
    }

    /// Marks these bytes of the program's text, and takes back what was known of others.
    fn mark_span(&mut self, alloc: Global, text: &str, span: Option<(usize, usize)>) {
        if let Some((at, behind)) = span {
            self.line = line_of_byte(text, at);
            self.mark = mark_of_bytes(text.as_bytes(), at, behind);
            self.detail = String::new(alloc);
        }
    }

    /// Takes what is told in place of the words of the kind.
    fn take(&mut self, told: FaultWords) {
        let FaultWords {
            hint,
            span: _,
            name,
            detail,
        } = told;
        self.meaning = hint.meaning;
        self.help = hint.help;
        self.name = name;
        if !detail.is_empty() {
            self.detail = detail;
        }
    }

    /// Marks what is at fault in a text that can't be read. There is no more than the line where no byte is, or where
    /// memory was refused to look for it.
    fn mark_unread(&mut self, text: &str, place: FaultPlace) {
        if place.fault.line != self.line || place.at == place.behind {
            return;
        }
        self.mark = mark_of_unread(text.as_bytes(), place);
        if ends_line(text.as_bytes(), place) {
            let end = if place.behind == text.len() {
                "the text ends here"
            } else {
                "the line ends here"
            };
            let _ = self.detail.push_str(end);
        }
    }

    /// The program has no code.
    pub(crate) fn unassembled(alloc: Global, program: &Program, fault: AsmFault) -> RefusalNote {
        let kind = fault.kind;
        let texts = RefusalTexts(kind.word(), kind.meaning(), kind.help());
        let mut cause = RefusalNote::of_line(alloc, fault.line, mark_of_unassembled(kind), texts);
        if let Ok(Some(told)) = told_of_unassembled(alloc, program, fault) {
            cause.take(told);
        } else if let Ok(text) = known_of_unassembled(alloc, program, fault) {
            cause.detail = text;
        }
        cause
    }

    /// The verdict refuses this line.
    pub(crate) fn unverified(alloc: Global, kind: RefusalKind, line: u32) -> RefusalNote {
        let texts = RefusalTexts(kind.word(), kind.meaning(), kind.help());
        RefusalNote::of_line(alloc, line, mark_of_unverified(kind), texts)
    }

    /// A trial stopped in this line.
    pub(crate) fn trapped(alloc: Global, kind: TrapKind, line: u32) -> RefusalNote {
        let texts = RefusalTexts(kind.word(), kind.meaning(), kind.help());
        RefusalNote::of_line(alloc, line, mark_of_trapped(kind), texts)
    }

    /// Tells of an instruction that acts at the end of its parentheses: the caret stands under its operator, on the line
    /// that opens them. Nothing of others.
    pub(crate) fn tell_closing(
        &mut self,
        alloc: Global,
        program: &Program,
        number: usize,
    ) -> Result<(), AllocError> {
        let Some(last) = line_inside(alloc, program, number) else {
            return Ok(());
        };
        self.mark = Mark::Operator;
        if !self.detail.is_empty() {
            self.detail.push_str("; ")?;
        }
        let place = format!(in alloc; "it acts at the ) after line {last}")?;
        self.detail.push_str(place.as_str())
    }

    /// An input line gives nothing to an input.
    pub(crate) fn no_input(alloc: Global, line: u32) -> RefusalNote {
        let texts = RefusalTexts(
            "input",
            "the line gives no value to an input",
            "write NAME=VALUE without blanks: an external that the program loads, once, and a value of its type or absent",
        );
        RefusalNote::of_line(alloc, line, Mark::Line, texts)
    }

    /// The site file is none.
    pub(crate) fn no_site(alloc: Global, fault: SiteFault) -> RefusalNote {
        let texts = RefusalTexts(fault.word(), fault.meaning(), fault.help());
        RefusalNote::of_file(alloc, NotedFile::Site, texts)
    }

    /// The plant file is none.
    pub(crate) fn no_plant(alloc: Global, fault: PlantFault) -> RefusalNote {
        let texts = RefusalTexts(fault.word(), fault.meaning(), fault.help());
        RefusalNote::of_file(alloc, NotedFile::Plant, texts)
    }

    /// The definition of this number is none.
    pub(crate) fn undefined(alloc: Global, number: usize, fault: DefFault) -> RefusalNote {
        let texts = RefusalTexts(fault.word(), fault.meaning(), fault.help());
        RefusalNote::of_file(alloc, NotedFile::Definition(number), texts)
    }

    /// The link to the devices failed.
    pub fn unlinked(alloc: Global, fault: LinkFault) -> RefusalNote {
        let texts = RefusalTexts(fault.word(), fault.meaning(), fault.help());
        RefusalNote::of_file(alloc, NotedFile::Link, texts)
    }

    /// The note, on the text of the file at the path.
    pub fn note<'a>(&'a self, path: &'a str, text: &'a str) -> Note<'a> {
        Note {
            path,
            text,
            line: self.line,
            mark: self.mark,
            kind: self.kind,
            meaning: self.meaning,
            help: self.help,
            name: self.name.as_str(),
            detail: self.detail.as_str(),
        }
    }
}

/// Where the carets stand on a line in which a trial stopped.
fn mark_of_trapped(kind: TrapKind) -> Mark {
    match kind {
        TrapKind::WrongType
        | TrapKind::Overflow
        | TrapKind::ZeroDivisor
        | TrapKind::MissingPoint
        | TrapKind::StoreRange => Mark::Operand,
        TrapKind::Code | TrapKind::Stack => Mark::Operator,
    }
}

/// What is told of a kind: its word, what is wrong, and what to do.
#[derive(Clone, Copy)]
struct RefusalTexts(&'static str, &'static str, &'static str);
