//! What the program is asked for over a link to devices, done by one call.
ghost use Rattle.std.specs.Prelude.{map, string_bytes};
ghost use Rattle.commands.specs.Obeyed.{ObeysOver, ProbesBy, Runs};

use crate::accepted::DEPTH;
use crate::clients::ScanClients;
use crate::model_texts::models_told;
use crate::pace::RunPace;
use crate::refusal::CommandRefusal;
use crate::scan_watch::ScanWatch;
use crate::site_scans::scans_noting;
use crate::unit_points::probe;
use file_keys::TomlFile;
use gateway::{Core, Poller};
use modbus_frame::Link;
use std::alloc::Global;
use std::io::Write;

/// What the program is asked for over a link, with the texts of the files that are named.
#[derive(Clone, Copy)]
pub enum LinkCommand<'a> {
    /// So many scans of a program on a site, so far apart.
    Run {
        site: &'a TomlFile<'a>,
        program: &'a str,
        defs: &'a [String],
        pace: RunPace,
    },
    /// The points of a unit, by the shipped definitions and those of the texts.
    Probe {
        unit: u8,
        defs: &'a [String],
    },
}

/// What came of a command over a link: the core after the scans, its status, and why a text is refused.
#[derive(Drop)]
pub struct ObeyedOver {
    pub core: Option<Core<DEPTH>>,
    pub status: u8,
    pub cause: Option<CommandRefusal>,
}

/// Does what a command asks for, on just its texts and over the poller's link, and prints what comes of it: as
/// [`scans`](crate::scans) and [`probe`] do. Where a text is refused nothing is asked over the link. `watch` looks on at
/// the scans, and asks what clients ask between them.
pub fn obey_over<L: Link, V: ScanWatch + ScanClients, W: Write>(
    alloc: Global,
    command: LinkCommand<'_>,
    poller: &mut Poller<L>,
    watch: &mut V,
    out: &mut W,
) -> ObeyedOver
    ensures { ObeysOver command.entry poller.old poller.new (W.contents out.old) (W.contents out.new) result.core result.status }
{
    match command {
        LinkCommand::Run {
            site,
            program,
            defs,
            pace,
        } => run_by(alloc, poller, site, program, defs, pace, watch, out),
        LinkCommand::Probe { unit, defs } => {
            let (status, cause) = probe_by(alloc, poller, unit, defs, out);
            ObeyedOver {
                core: None,
                status,
                cause,
            }
        }
    }
}

/// Does so many scans of a program on a site, so far apart.
fn run_by<L: Link, V: ScanWatch + ScanClients, W: Write>(
    alloc: Global,
    poller: &mut Poller<L>,
    site: &TomlFile<'_>,
    program: &str,
    defs: &[String],
    pace: RunPace,
    watch: &mut V,
    out: &mut W,
) -> ObeyedOver
    ensures { Runs site.now program.now (map string_bytes defs.now) pace poller.old poller.new (W.contents out.old) (W.contents out.new) result.core result.status }
{
    let mut cause = None;
    let (core, status) = scans_noting(
        alloc, site, program, defs, pace, poller, watch, &mut cause, out,
    );
    ObeyedOver {
        core,
        status,
        cause,
    }
}

/// Probes a unit by the shipped definitions and those of the texts, or tells the first text that is none.
fn probe_by<L: Link, W: Write>(
    alloc: Global,
    poller: &mut Poller<L>,
    unit: u8,
    defs: &[String],
    out: &mut W,
) -> (u8, Option<CommandRefusal>)
    ensures { ProbesBy unit (map string_bytes defs.now) poller.old poller.new (W.contents out.old) (W.contents out.new) result.0 }
{
    match models_told(alloc, defs, out) {
        Ok(models) => (probe(alloc, poller, unit, models.as_slice(), out), None),
        Err(refused) => (refused.status, refused.cause),
    }
}
