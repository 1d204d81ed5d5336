//! What is printed on standard error of a refusal.
use crate::file_causes::{cause_of_definition, cause_of_plant, cause_of_site};
use crate::file_fault::FileFault;
use crate::listen_fault::ListenFault;
use crate::program_causes::cause_of_program;
use crate::refusal_note::{NotedFile, RefusalNote};
use commands::CommandRefusal;
use file_keys::TomlFile;
use file_notes::{warnings_of_definition, warnings_of_plant, warnings_of_site};
use note_text::{Mark, Note};
use site_model::Site;
use std::alloc::{AllocError, Global};

/// The files that the notes of a command are on, each by its path and its text, and whether there are notes.
#[derive(Clone, Copy)]
pub struct Notes<'a> {
    /// Whether nothing is printed.
    pub quiet: bool,
    pub site_path: &'a str,
    pub site: &'a TomlFile<'a>,
    pub program_path: &'a str,
    pub program: &'a str,
    pub plant_path: &'a str,
    pub plant: &'a TomlFile<'a>,
    pub def_paths: &'a [&'a str],
    pub defs: &'a [String],
}

impl<'a> Notes<'a> {
    /// Prints why a command on these files refuses. Where that fails, or memory for it is refused, nothing more comes of it.
    pub fn explain(&self, rt: &(impl Eprint + AllocGlobal), cause: &Option<CommandRefusal>) {
        self.explain_for(rt, cause, None);
    }

    /// The same, where it was handed the site for which it refuses a program.
    pub fn explain_for(
        &self,
        rt: &(impl Eprint + AllocGlobal),
        cause: &Option<CommandRefusal>,
        site: Option<&Site>,
    ) {
        if self.quiet {
            return;
        }
        if let Some(cause) = cause {
            if let Some(note) = self.note_of(rt.alloc(), cause, site) {
                self.tell(rt, &note);
            }
        }
    }

    /// Prints a note on one of these files, or on the link. Where that fails, or memory for it is refused, nothing more comes
    /// of it.
    pub fn tell(&self, rt: &(impl Eprint + AllocGlobal), note: &RefusalNote) {
        if !self.quiet {
            let (path, text) = (self.path(note.file), self.text(note.file));
            print(rt, &note.note(path, text));
        }
    }

    fn note_of(
        &self,
        alloc: Global,
        cause: &CommandRefusal,
        site: Option<&Site>,
    ) -> Option<RefusalNote> {
        match cause {
            CommandRefusal::Definition(fault) => {
                Some(cause_of_definition(alloc, self.defs, *fault))
            }
            CommandRefusal::Site(models, placed) => {
                Some(cause_of_site(alloc, self.site, models.as_slice(), *placed))
            }
            CommandRefusal::Plant(models, placed) => {
                Some(cause_of_plant(alloc, self.plant, models.as_slice(), *placed))
            }
            _ => cause_of_program(alloc, self.program, site, cause),
        }
    }

    /// Warns of what nothing reads in the files. Where that fails, or memory for it is refused, nothing more comes of it.
    pub fn warn(&self, rt: &(impl Eprint + AllocGlobal)) {
        if self.quiet {
            return;
        }
        if let Ok(lines) = self.warnings(rt.alloc()) {
            if !lines.is_empty() {
                let _ = rt.eprint(lines.as_str());
            }
        }
    }

    /// Warnings of what nothing reads in the files; empty where each key is known.
    pub fn warnings(&self, alloc: Global) -> Result<String, AllocError> {
        let mut lines = warnings_of_site(alloc, self.site_path, self.site)?;
        let plant = warnings_of_plant(alloc, self.plant_path, self.plant)?;
        lines.push_str(plant.as_str())?;
        for (number, text) in self.defs.iter().enumerate() {
            let path = path_at(self.def_paths, number);
            let of_definition = warnings_of_definition(alloc, path, text.as_str())?;
            lines.push_str(of_definition.as_str())?;
        }
        Ok(lines)
    }

    fn path(&self, file: NotedFile) -> &str {
        match file {
            NotedFile::Program => self.program_path,
            NotedFile::Site => self.site_path,
            NotedFile::Plant => self.plant_path,
            NotedFile::Definition(number) => path_at(self.def_paths, number),
            NotedFile::Link => "link",
        }
    }

    fn text(&self, file: NotedFile) -> &str {
        match file {
            NotedFile::Program => self.program,
            NotedFile::Site => self.site.text(),
            NotedFile::Plant => self.plant.text(),
            NotedFile::Definition(number) => text_at(self.defs, number),
            NotedFile::Link => "",
        }
    }
}

/// Prints why the program is refused that a text begins with, or its trial stopped, where no other file stands beside it.
/// Where that fails, or memory for it is refused, nothing more comes of it.
pub fn explain_program(
    rt: &(impl Eprint + AllocGlobal),
    path: &str,
    text: &str,
    cause: &Option<CommandRefusal>,
) {
    if let Some(cause) = cause {
        if let Some(note) = cause_of_program(rt.alloc(), text, None, cause) {
            print(rt, &note.note(path, text));
        }
    }
}

/// Prints why a file can't be used.
pub fn explain_unusable(rt: &(impl Eprint + AllocGlobal), path: &str, fault: FileFault) {
    let Ok(detail) = place_of_byte(rt.alloc(), fault) else {
        return;
    };
    let texts = ("file", fault.meaning(), fault.help());
    print(rt, &note_on(path, texts, detail.as_str()));
}

/// Prints why nothing can be served at an address.
pub fn explain_unserved(rt: &(impl Eprint + AllocGlobal), address: &str, fault: ListenFault) {
    let Ok(path) = format!(in rt.alloc(); "listen {address}") else {
        return;
    };
    let texts = (fault.word(), fault.meaning(), fault.help());
    print(rt, &note_on(path.as_str(), texts, ""));
}

/// A note on the whole of a file or an address, by its kind, what is wrong, and what to do.
fn note_on<'a>(
    path: &'a str,
    (kind, meaning, help): (&'a str, &'a str, &'a str),
    detail: &'a str,
) -> Note<'a> {
    Note {
        path,
        text: "",
        line: 0,
        mark: Mark::Line,
        kind,
        meaning,
        help,
        name: "",
        detail,
    }
}

/// Where the byte stands that isn't UTF-8; empty for other faults.
fn place_of_byte(alloc: Global, fault: FileFault) -> Result<String, AllocError> {
    match fault {
        FileFault::NotUtf8(before) => {
            let number = before.saturating_add(1);
            let text = format!(in alloc; "byte {number} of it isn't")?;
            Ok(text)
        }
        _ => Ok(String::new(alloc)),
    }
}

fn path_at<'a>(paths: &[&'a str], number: usize) -> &'a str {
    match paths.get(number) {
        Some(path) => path,
        None => "",
    }
}

fn text_at(texts: &[String], number: usize) -> &str {
    match texts.get(number) {
        Some(text) => text.as_str(),
        None => "",
    }
}

fn print(rt: &(impl Eprint + AllocGlobal), note: &Note<'_>) {
    if let Ok(note) = note.shown(rt.alloc()) {
        let _ = rt.eprint(note.as_str());
    }
}
