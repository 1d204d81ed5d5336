//! The scans of a program on a site, whose devices are asked over a poller.
ghost use Rattle.std.specs.Prelude.{◌≡◌, ◌≢◌, false, length, map, Err, None, string_bytes, IfNone, IfOk, IfSome, OnErr};
ghost use Rattle.gateway.specs.event_core.Control.{after_wait};
ghost use Rattle.gateway.specs.event_core.Fault.{core_fault_word};
ghost use Rattle.gateway.specs.declared.event_core.fault.CoreFault.TheVariants.{Foreign};
ghost use Rattle.modbus_frame.specs.Fault.{link_fault_word};
ghost use Rattle.modbus_frame.specs.declared.link.LinkFault.TheVariants as link;
ghost use Rattle.scan_vm.specs.Machine as vm;
ghost use Rattle.gateway.specs.event_core.Core.{Gateway};
ghost use Rattle.commands.specs.Clients.{ClientsAsk};
ghost use Rattle.commands.specs.Headline.{IsAccepted, RunsProgram};
ghost use Rattle.commands.specs.Opening.{IsRefused, IsSearched, LeavesPoller, MakesCore, OpensCore, StartsCore};
ghost use Rattle.commands.specs.Printed.{unlinked_with};
ghost use Rattle.commands.specs.Report.{bad_core_line, link_line};
ghost use Rattle.commands.specs.Scans.{IsLast, IsPrinted, LeavesOff};
ghost use Rattle.commands.specs.Sources.{HasTexts};
ghost use Rattle.commands.specs.Told.{refused_with};

pub use crate::accepted::DEPTH;
use crate::accepted::{Accepted, accept};
use crate::clients::{ScanClients, ask};
use crate::outcome::{CommandOutcome, tell_no_memory, tell_unlinked, write_lines};
use crate::pace::RunPace;
use crate::refusal::CommandRefusal;
use crate::report::no_core;
use crate::scan_watch::{ScanWatch, Unwatched};
use file_keys::TomlFile;
use gateway::{Core, CoreFault, Event, Poller, WriteOrder, run_scan};
use modbus_frame::{Link, LinkFault};
use register_map::Map;
use scan_vm::Machine;
use site_model::Site;
use std::alloc::{AllocError, Global};
use std::io::Write;

/// Finds the devices of a site over a poller, and does n scans of a program on it, a second apart for the program and with no
/// client that asks between them, by the shipped model definitions and those of the texts `defs`: prints `scan K steps S writes W refused R lost T` for each, or the first refusal. Gives
/// the core, where there is one, and the status: 0, 1 for a refusal or a failed write, 3 where the link failed.
///
/// The core stands at the site run of all events so far, from the opening of the site and the program that were handed
/// in: each scan of it does what the program means, on what the devices answered, without a trap and within the budget.
pub fn scans<L: Link, W: Write>(
    alloc: Global,
    site: &TomlFile<'_>,
    program: &str,
    defs: &[String],
    n: u32,
    poller: &mut Poller<L>,
    out: &mut W,
) -> (Option<Core<DEPTH>>, u8)
    ensures accepted { IfSome result.0 (λ core. IsAccepted site.now program.now (map string_bytes defs.now) core.site core.machine.accepted) }
    ensures texts { IfSome result.0 (λ core. HasTexts site.now program.now (map string_bytes defs.now) core.site core.machine.accepted) }
    ensures run { IfSome result.0 (λ core. RunsProgram program.now (record { scans = n; every = 1000; asked = false }) (record { link_before = poller.old; link_behind = poller.new; out_before = W.contents out.old; out_behind = W.contents out.new; status = result.1 }) core) }
    ensures refused { IfNone result.0 (IsRefused site.now program.now (map string_bytes defs.now) poller.old poller.new (W.contents out.old) (W.contents out.new) result.1) }
{
    let mut cause = None;
    let watch = &mut Unwatched;
    let pace = RunPace::usual(n);
    scans_noting(
        alloc, site, program, defs, pace, poller, watch, &mut cause, out,
    )
}

/// The same, at a pace of one's own; `watch` looks on at each scan, and asks what clients ask before it where the pace says so. The
/// cause is noted where the definitions, the site or the program are refused.
pub fn scans_noting<L: Link, V: ScanWatch + ScanClients, W: Write>(
    alloc: Global,
    site: &TomlFile<'_>,
    program: &str,
    defs: &[String],
    pace: RunPace,
    poller: &mut Poller<L>,
    watch: &mut V,
    cause: &mut Option<CommandRefusal>,
    out: &mut W,
) -> (Option<Core<DEPTH>>, u8)
    ensures accepted { IfSome result.0 (λ core. IsAccepted site.now program.now (map string_bytes defs.now) core.site core.machine.accepted) }
    ensures texts { IfSome result.0 (λ core. HasTexts site.now program.now (map string_bytes defs.now) core.site core.machine.accepted) }
    ensures run { IfSome result.0 (λ core. RunsProgram program.now pace (record { link_before = poller.old; link_behind = poller.new; out_before = W.contents out.old; out_behind = W.contents out.new; status = result.1 }) core) }
    ensures refused { IfNone result.0 (IsRefused site.now program.now (map string_bytes defs.now) poller.old poller.new (W.contents out.old) (W.contents out.new) result.1) }
{
    match core_of(alloc, site, program, defs, poller) {
        Ok(Ok(core)) => {
            let mut core = core;
            let status = scan_times(alloc, &mut core, poller, pace, watch, out);
            (Some(core), status)
        }
        Ok(Err(outcome)) => {
            let status = outcome.tell(out);
            *cause = outcome.cause;
            (None, status)
        }
        Err(AllocError) => (None, tell_no_memory(out)),
    }
}

/// Does the scans, with a line for each; the first that fails ends them, and is the one that nobody looks on at.
fn scan_times<L: Link, V: ScanWatch + ScanClients, W: Write>(
    alloc: Global,
    core: &mut Core<DEPTH>,
    poller: &mut Poller<L>,
    pace: RunPace,
    watch: &mut V,
    out: &mut W,
) -> u8
    requires { poller.old.fault ≡ None }
    ensures { LeavesOff pace poller.old core.old poller.new core.new (W.contents out.old) (W.contents out.new) result }
{
    let mut order = WriteOrder::new();
    for k in 0..pace.scans {
        ask(pace.asked, core, watch, k + 1);
        let status = scan_once(alloc, core, poller, &mut order, pace, k + 1, out);
        if status != 0 {
            return status;
        }
        watch.scanned(core, &order, k + 1);
    }
    0
}

/// Does the k-th scan, at this pace after the one before, and prints its line. Whatever clients asked before it belongs to it.
fn scan_once<L: Link, W: Write>(
    alloc: Global,
    core: &mut Core<DEPTH>,
    poller: &mut Poller<L>,
    order: &mut WriteOrder,
    pace: RunPace,
    k: u32,
    out: &mut W,
) -> u8
    requires { poller.old.fault ≡ None }
    ensures printed { result ≡ 0 → (first : Gateway) → ClientsAsk pace.asked first core.old → IsPrinted pace k poller.old first poller.new core.new (W.contents out.old) (W.contents out.new) }
    ensures last { result ≢ 0 → (first : Gateway) → ClientsAsk pace.asked first core.old → IsLast pace k poller.old first poller.new core.new (W.contents out.old) (W.contents out.new) result }
{
    wait(core, pace.every);
    match run_scan(core, poller, order) {
        Ok(report) => match report.told(alloc, u64::from(k)) {
            Ok(line) => write_lines(out, line.as_bytes(), 0),
            Err(_) => tell_no_memory(out),
        },
        Err(fault) => tell_unlinked(alloc, fault, out),
    }
}

/// So many milliseconds go by for the core.
fn wait(core: &mut Core<DEPTH>, elapsed: u32)
    ensures { core.new ≡ after_wait elapsed core.old }
{
    core.step(Event::Time(elapsed));
}

/// The core of a program on a site, at the start; or what is told where there is none.
fn core_of<L: Link>(
    alloc: Global,
    site: &TomlFile<'_>,
    program: &str,
    defs: &[String],
    poller: &mut Poller<L>,
) -> Result<Result<Core<DEPTH>, CommandOutcome>, AllocError>
    ensures starts { IfOk result (StartsCore site.now program.now (map string_bytes defs.now) poller.old poller.new) }
    ensures left { OnErr result (LeavesPoller site.now program.now (map string_bytes defs.now) poller.old poller.new) }
{
    match accept(alloc, site, program, defs) {
        Ok(Ok(given)) => opened(alloc, given, poller),
        Ok(Err(outcome)) => Ok(Err(outcome)),
        Err(AllocError) => Err(AllocError),
    }
}

/// The core of an accepted program, once the devices' maps are found.
fn opened<L: Link>(
    alloc: Global,
    given: Accepted,
    poller: &mut Poller<L>,
) -> Result<Result<Core<DEPTH>, CommandOutcome>, AllocError>
    ensures opens { IfOk result (OpensCore given.site given.verified poller.old poller.new) }
    ensures left { OnErr result (IsSearched given.site.devices poller.old poller.new) }
{
    match poller.find(alloc, &given.site) {
        Ok(maps) => core_over(alloc, given, maps),
        Err(fault) => unfound(alloc, fault),
    }
}

/// What is told where the devices' maps aren't found.
fn unfound(
    alloc: Global,
    fault: LinkFault,
) -> Result<Result<Core<DEPTH>, CommandOutcome>, AllocError>
    ensures { IfOk result (λ none. (fault ≢ link.OutOfMemory) × (none ≡ Err (unlinked_with (link_line (link_fault_word fault))))) }
{
    if let LinkFault::OutOfMemory = fault {
        return Err(AllocError);
    }
    Ok(Err(CommandOutcome::unlinked(alloc, fault)?))
}

/// The core of an accepted program over the maps of its site's devices.
fn core_over(
    alloc: Global,
    given: Accepted,
    maps: Vec<Option<Map>>,
) -> Result<Result<Core<DEPTH>, CommandOutcome>, AllocError>
    requires { length maps.items ≡ length given.site.devices }
    ensures { IfOk result (MakesCore given.site (vm.opened given.verified) maps.items) }
{
    let Accepted { site, verified } = given;
    match Machine::new(alloc, verified) {
        Ok(machine) => core_with(alloc, site, machine, maps),
        Err(AllocError) => Err(AllocError),
    }
}

/// The core of a machine over the maps of a site's devices.
fn core_with(
    alloc: Global,
    site: Site,
    machine: Machine<DEPTH>,
    maps: Vec<Option<Map>>,
) -> Result<Result<Core<DEPTH>, CommandOutcome>, AllocError>
    requires { length maps.items ≡ length site.devices }
    ensures { IfOk result (MakesCore site machine maps.items) }
{
    match Core::new(alloc, site, machine, maps) {
        Ok(core) => Ok(Ok(core)),
        Err(fault) => unmade(alloc, fault),
    }
}

/// What is told where no core is made.
fn unmade(
    alloc: Global,
    fault: CoreFault,
) -> Result<Result<Core<DEPTH>, CommandOutcome>, AllocError>
    ensures { IfOk result (λ none. (fault ≡ Foreign) × (none ≡ Err (refused_with (bad_core_line (core_fault_word Foreign))))) }
{
    if let CoreFault::OutOfMemory = fault {
        return Err(AllocError);
    }
    let line = no_core(alloc, fault.word())?;
    Ok(Err(CommandOutcome::refused(line)))
}
