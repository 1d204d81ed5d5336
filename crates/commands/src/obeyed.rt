//! What the program is asked for where texts are enough, done by one call.
ghost use Rattle.std.specs.Prelude.{◌≡◌, map, string_bytes};
ghost use Rattle.commands.specs.Obeyed.{Checks, Obeys};

use crate::explained::explain;
use crate::program_table::ProgramTable;
use crate::refusal::CommandRefusal;
use crate::trial_scan::try_input;
use crate::verdict::judge;
use file_keys::TomlFile;
use std::alloc::Global;
use std::io::Write;

/// What the program is asked for that needs no link, with the texts of the files that are named.
#[derive(Clone, Copy)]
pub enum TextCommand<'a> {
    /// A trial scan of the program that the input begins with, on the input lines after it.
    Trial {
        input: &'a str,
    },
    /// The verdict on a program for a site.
    Check {
        site: &'a TomlFile<'a>,
        program: &'a str,
        defs: &'a [String],
    },
    /// The program with what is told beside its lines.
    Explain {
        site: &'a TomlFile<'a>,
        program: &'a str,
        defs: &'a [String],
    },
}

/// What came of a command: its status, and why a text is refused.
#[derive(Drop)]
pub struct Obeyed {
    pub status: u8,
    pub cause: Option<CommandRefusal>,
}

impl Obeyed {
    pub(crate) fn of(told: (u8, Option<CommandRefusal>)) -> Obeyed
        ensures { result.status ≡ told.0 }
    {
        let (status, cause) = told;
        Obeyed { status, cause }
    }
}

/// Does what a command asks for, on just its texts, and prints what comes of it: as [`trial`](crate::trial),
/// [`check`](crate::check) and [`explain`](crate::explain) do, the last one by `table`.
pub fn obey<T: ProgramTable, W: Write>(
    alloc: Global,
    command: TextCommand<'_>,
    table: &T,
    out: &mut W,
) -> Obeyed
    ensures { Obeys command.entry (W.contents out.old) (W.contents out.new) result.status }
{
    match command {
        TextCommand::Trial { input } => Obeyed::of(try_input(alloc, input, out)),
        TextCommand::Check {
            site,
            program,
            defs,
        } => checked(alloc, site, program, defs, out),
        TextCommand::Explain {
            site,
            program,
            defs,
        } => Obeyed::of(explain(alloc, site, program, defs, table, out)),
    }
}

/// Has a program judged for a site.
fn checked<W: Write>(
    alloc: Global,
    site: &TomlFile<'_>,
    program: &str,
    defs: &[String],
    out: &mut W,
) -> Obeyed
    ensures { Checks site.now program.now (map string_bytes defs.now) (W.contents out.old) (W.contents out.new) result.status }
{
    let judged = judge(alloc, site, program, defs, out);
    Obeyed::of((judged.status, judged.cause))
}
