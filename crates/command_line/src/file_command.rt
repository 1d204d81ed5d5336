//! What a command line asks for on the texts of its files, done by one call.
ghost use Rattle.std.specs.Prelude.{map, string_bytes};
ghost use Rattle.commands.specs.Obeyed.{Checks, Obeys};
ghost use Rattle.command_line.specs.Asked.{ObeysFiles};

use crate::plant_server::{PlantPort, simulate};
use command_files::{
    ExplainTable, PlantRun, ProbeRun, RunRuntime, probe_over, run_plant, warn_beside, warn_of_site,
};
use commands::{RunPace, TextCommand, judge};
use refusal_notes::Notes;
use std::alloc::Global;
use std::io::Write;
use std::time::Clock;

/// What a command line asks for on the texts of its files, but for a service.
#[derive(Clone, Copy)]
pub enum FileCommand<'a> {
    Check,
    Explain {
        listing: bool,
    },
    Simulate {
        at: PlantPort,
    },
    Run {
        plant: &'a str,
        pace: RunPace,
        /// The program that is started, where it isn't this one.
        exe: Option<&'a str>,
    },
    Probe {
        run: ProbeRun<'a>,
    },
}

/// Does what a command asks for, on just the texts of its files; `itself` is this program's path.
pub fn obey_on<W: Write>(
    rt: &(impl RunRuntime + Clock),
    alloc: Global,
    itself: &str,
    command: FileCommand<'_>,
    notes: &Notes<'_>,
    out: &mut W,
) -> u8
    ensures { ObeysFiles command.entry notes.now (W.contents out.old) (W.contents out.new) result }
{
    let (site, program, defs) = (notes.site, notes.program, notes.defs);
    match command {
        FileCommand::Check => checked(rt, notes, out),
        FileCommand::Explain { listing } => {
            let explain = TextCommand::Explain {
                site,
                program,
                defs,
            };
            told(rt, explain, ExplainTable { listing }, notes, out)
        }
        FileCommand::Simulate { at } => {
            notes.warn(rt);
            simulate(rt, alloc, notes, at, out)
        }
        FileCommand::Run { plant, pace, exe } => {
            let run = PlantRun {
                notes: *notes,
                plant,
                pace,
                settings: &[],
                exe: exe.unwrap_or(itself),
            };
            warn_of_site(rt, notes);
            run_plant(rt, alloc, &run, out)
        }
        FileCommand::Probe { run } => {
            notes.warn(rt);
            probe_over(rt, alloc, run, notes, out)
        }
    }
}

/// Has a command obeyed on the texts of its files, warns on standard error of what nothing reads in them, and explains
/// there why a text is refused.
fn told<W: Write>(
    rt: &(impl Eprint + AllocGlobal),
    command: TextCommand<'_>,
    table: ExplainTable,
    notes: &Notes<'_>,
    out: &mut W,
) -> u8
    ensures { Obeys command.entry (W.contents out.old) (W.contents out.new) result }
{
    let obeyed = commands::obey(rt.alloc(), command, &table, out);
    notes.warn(rt);
    notes.explain(rt, &obeyed.cause);
    obeyed.status
}

/// Judges a program for a site, and warns as [`told`] does; where it is accepted also of what clients may not be shown, and
/// of what `serve` would refuse or not keep.
fn checked<W: Write>(rt: &(impl Eprint + AllocGlobal), notes: &Notes<'_>, out: &mut W) -> u8
    ensures { Checks notes.now.site.now notes.now.program.now (map string_bytes notes.now.defs.now) (W.contents out.old) (W.contents out.new) result }
{
    let judged = judge(rt.alloc(), notes.site, notes.program, notes.defs, out);
    notes.warn(rt);
    notes.explain(rt, &judged.cause);
    if let Some(given) = &judged.accepted {
        if judged.status == 0 {
            warn_beside(rt, notes, given);
        }
    }
    judged.status
}
