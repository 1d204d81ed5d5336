//! The texts of the files that a command line names.
ghost use Rattle.command_files.specs.Printing.{Fails};

use clap::ArgMatches;
use command_files::{
    SourceFault, definitions_in, read_file, read_kept, read_kept_program, tell_file,
};
use commands::tell_no_memory;
use refusal_notes::FileFault;
use std::alloc::{AllocError, AllocFailed, Global};
use std::io::Write;
use std::rt::Files;

/// The texts of the files that are named; empty where a command names none.
#[derive(Drop)]
pub(crate) struct Sources {
    pub site: String,
    pub program: String,
    /// Why the program's file isn't had, where that is the text of the one that was accepted last.
    pub program_fault: Option<FileFault>,
    pub plant: String,
    /// What clients set in a run.
    pub sets: String,
    /// What a run was, for `explain`.
    pub trace: String,
    pub definitions: Definitions,
}

/// The definitions that are handed in, in order.
#[derive(Drop)]
pub(crate) struct Definitions {
    /// The path of each.
    pub paths: Vec<String>,
    /// The text of each.
    pub texts: Vec<String>,
    /// The folders that are named and have none.
    pub bare_folders: Vec<String>,
}

impl Definitions {
    /// The path of each, as notes have them.
    pub fn paths(&self, alloc: Global) -> Result<Vec<&str>, AllocError> {
        let mut paths = Vec::new(alloc);
        for path in self.paths.iter() {
            paths.push(path.as_str())?;
        }
        Ok(paths)
    }
}

/// Why the files' texts aren't had: the first file that can't be used, or want of memory.
#[derive(Drop)]
pub(crate) enum SourceRefusal {
    File(String, FileFault),
    OutOfMemory,
}

impl SourceRefusal {
    /// Why the text at a path isn't had.
    fn of(alloc: Global, path: &str, fault: SourceFault) -> SourceRefusal {
        match (fault, path.to_string(alloc)) {
            (SourceFault::Unusable(fault), Ok(path)) => SourceRefusal::File(path, fault),
            _ => SourceRefusal::OutOfMemory,
        }
    }

    /// Why the file can't be used, where it is that.
    fn fault(&self) -> Option<FileFault> {
        match self {
            SourceRefusal::File(_, fault) => Some(*fault),
            SourceRefusal::OutOfMemory => None,
        }
    }

    /// Writes its line, and gives the status.
    pub fn tell<W: Write>(&self, alloc: Global, out: &mut W) -> u8
        ensures { Fails (W.contents out.old) (W.contents out.new) result }
    {
        match self {
            SourceRefusal::OutOfMemory => tell_no_memory(out),
            SourceRefusal::File(path, _) => tell_file(alloc, path.as_str(), out),
        }
    }
}

impl From<AllocError> for SourceRefusal {
    fn from(_refused: AllocError) -> Self {
        SourceRefusal::OutOfMemory
    }
}

impl<T: Drop> From<AllocFailed<T>> for SourceRefusal {
    fn from(_refused: AllocFailed<T>) -> Self {
        SourceRefusal::OutOfMemory
    }
}

/// Reads the files that the command names, in the order site, program, plant, set values, trace, definitions.
pub(crate) fn read_sources(
    rt: &(impl Input + Eprint + AllocGlobal + Files),
    alloc: Global,
    matches: &ArgMatches<'_>,
) -> Result<Sources, SourceRefusal> {
    let site = named_text(rt, alloc, matches.get_str("SITE"))?;
    let program = read_program(rt, alloc, matches)?;
    let plant = named_text(rt, alloc, matches.get_str("PLANT"))?;
    let sets = named_text(rt, alloc, matches.get_str("sets"))?;
    let trace = named_text(rt, alloc, matches.get_str("traced"))?;
    let definitions = match read_definitions(rt, alloc, matches.get_strs("def").unwrap_or(&[])) {
        Ok(definitions) => definitions,
        Err(refusal) => return Err(program.refusal_before(alloc, matches, refusal)),
    };
    let ProgramSource { text, fault } = program;
    Ok(Sources {
        site,
        program: text,
        program_fault: fault,
        plant,
        sets,
        trace,
        definitions,
    })
}

/// The text of a program.
#[derive(Drop)]
struct ProgramSource {
    text: String,
    /// Why its file isn't had, where that is the text of the one that was accepted last.
    fault: Option<FileFault>,
}

impl ProgramSource {
    /// The first refusal: that of the program's file, where it isn't had, else this one.
    fn refusal_before(
        &self,
        alloc: Global,
        matches: &ArgMatches<'_>,
        refusal: SourceRefusal,
    ) -> SourceRefusal {
        match (self.fault, matches.get_str("PROGRAM")) {
            (Some(fault), Some(path)) => {
                SourceRefusal::of(alloc, path, SourceFault::Unusable(fault))
            }
            _ => refusal,
        }
    }
}

/// The text of the program, where one is named. Where its file isn't had, and the command keeps its programs, it is that of
/// the one that was accepted last.
fn read_program(
    rt: &(impl Input + Eprint + AllocGlobal + Files),
    alloc: Global,
    matches: &ArgMatches<'_>,
) -> Result<ProgramSource, SourceRefusal> {
    let path = matches.get_str("PROGRAM");
    match named_text(rt, alloc, path) {
        Ok(text) => Ok(ProgramSource { text, fault: None }),
        Err(refusal) => kept_source(rt, alloc, matches, refusal),
    }
}

/// The program that was accepted last, where it is kept; else its file's refusal stands.
fn kept_source(
    rt: &(impl Eprint + AllocGlobal + Files),
    alloc: Global,
    matches: &ArgMatches<'_>,
    refusal: SourceRefusal,
) -> Result<ProgramSource, SourceRefusal> {
    let (Some(fault), Some(state)) = (refusal.fault(), matches.get_str("state")) else {
        return Err(refusal);
    };
    match read_kept_program(rt, alloc, state, matches.get_flag("quiet")) {
        Some(text) => Ok(ProgramSource {
            text,
            fault: Some(fault),
        }),
        None => Err(refusal),
    }
}

/// The text of the file of set values; empty where there is none, or none is kept.
pub(crate) fn read_state(
    rt: &(impl AllocGlobal + Files),
    alloc: Global,
    matches: &ArgMatches<'_>,
) -> Result<String, SourceRefusal> {
    match matches.get_str("state") {
        Some(path) => taken(alloc, path, read_kept(rt, alloc, path)),
        None => Ok(String::new(alloc)),
    }
}

/// The model definitions that are handed in, in order: each path is that of one, or of a folder of them.
fn read_definitions(
    rt: &(impl Input + AllocGlobal + Files),
    alloc: Global,
    paths: &[&str],
) -> Result<Definitions, SourceRefusal> {
    let mut read = Definitions {
        paths: Vec::new(alloc),
        texts: Vec::new(alloc),
        bare_folders: Vec::new(alloc),
    };
    for path in paths {
        push_named(rt, alloc, &mut read, path)?;
    }
    Ok(read)
}

/// Appends the definition at a path, or those of the folder there.
fn push_named(
    rt: &(impl Input + AllocGlobal + Files),
    alloc: Global,
    read: &mut Definitions,
    path: &str,
) -> Result<(), SourceRefusal> {
    match read_file(rt, alloc, path) {
        Err(SourceFault::Unusable(FileFault::Folder)) => push_folder(rt, alloc, read, path),
        text => push_text(alloc, read, path, text),
    }
}

/// Appends the definitions of a folder.
fn push_folder(
    rt: &(impl Input + AllocGlobal + Files),
    alloc: Global,
    read: &mut Definitions,
    folder: &str,
) -> Result<(), SourceRefusal> {
    match definitions_in(rt, alloc, folder) {
        Ok(paths) if paths.is_empty() => {
            read.bare_folders.push(folder.to_string(alloc)?)?;
            Ok(())
        }
        Ok(paths) => push_files(rt, alloc, read, paths.as_slice()),
        Err(fault) => Err(SourceRefusal::of(alloc, folder, fault)),
    }
}

/// Appends the definitions of the files at these paths.
fn push_files(
    rt: &(impl Input + AllocGlobal + Files),
    alloc: Global,
    read: &mut Definitions,
    paths: &[String],
) -> Result<(), SourceRefusal> {
    for path in paths {
        let text = read_file(rt, alloc, path.as_str());
        push_text(alloc, read, path.as_str(), text)?;
    }
    Ok(())
}

/// Appends the text that was read at a path, unless there is none.
fn push_text(
    alloc: Global,
    read: &mut Definitions,
    path: &str,
    text: Result<String, SourceFault>,
) -> Result<(), SourceRefusal> {
    let text = taken(alloc, path, text)?;
    read.paths.push(path.to_string(alloc)?)?;
    read.texts.push(text)?;
    Ok(())
}

/// The text of a file where one is named, and else none.
fn named_text(
    rt: &(impl Input + AllocGlobal + Files),
    alloc: Global,
    path: Option<&str>,
) -> Result<String, SourceRefusal> {
    match path {
        Some(path) => taken(alloc, path, read_file(rt, alloc, path)),
        None => Ok(String::new(alloc)),
    }
}

/// The text that was read at a path, or why there is none.
fn taken(
    alloc: Global,
    path: &str,
    text: Result<String, SourceFault>,
) -> Result<String, SourceRefusal> {
    match text {
        Ok(text) => Ok(text),
        Err(fault) => Err(SourceRefusal::of(alloc, path, fault)),
    }
}
