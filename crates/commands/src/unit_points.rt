//! The points of a device, as they are read over a link.
ghost use Rattle.std.specs.Prelude.{◌≡◌, ◌≢◌, ◌++◌, ℕ, List, None, true, option_map, IfOk, IfErr, IfSome, OnOk, OnErr};
ghost use Rattle.point_types.specs.declared.kind.Kind.TheVariants as kinds;
ghost use Rattle.modbus_frame.specs.Message.{HasQuantity};
ghost use Rattle.site_model.specs.Tagging.{is_numeric};
ghost use Rattle.commands.specs.Printed.{IsUnlinked};
ghost use Rattle.commands.specs.Probe.{IsProbe, LeavesOff, PointsRead, Probes, ReadsMap, StopsBy, TellsMap, definition_of, model_line, point_lines, points_by, points_request, shown_line, shown_number, unlinked};

use crate::outcome::{CommandOutcome, tell_no_memory};
use crate::report::{no_map, push_end, push_model, push_point};
use gateway::{Outcome as Answer, Poller};
use modbus_frame::{Link, LinkFault, Request};
use model_defs::{ModelDef, Point};
use point_types::{Kind, value};
use register_map::{Block, Map};
use site_model::registers::registers_at;
use std::alloc::{AllocError, Global};
use std::io::Write;

/// The registers of a model's ID and its length.
const HEADER: u16 = 2;

/// Reads the models of a unit over a poller's link, and prints for each model `model ID ADDR LENGTH` and below it
/// `NAME NUMBER` for each point that is present, but for ID, L, pads and strings; last `end ADDR`. Of several definitions
/// of an ID the last one counts; a model without one, or whose registers the unit doesn't give, has its line alone
/// (SunSpec Device Information Model Specification, models in Modbus registers). Nothing but reads of this unit is asked.
/// Gives the status: 0, 1 for a refusal or a failed write, 3 where the link failed.
pub fn probe<L: Link, W: Write>(
    alloc: Global,
    poller: &mut Poller<L>,
    unit: u8,
    models: &[ModelDef],
    out: &mut W,
) -> u8
    ensures probes { poller.old.fault ≡ None
        → IsProbe unit models.now poller.old (W.contents out.old) poller.new (W.contents out.new) result }

    // After a fault that fault is told, and nothing is touched.
    ensures stands { IfSome poller.old.fault (λ fault. IsUnlinked fault (W.contents out.old) (W.contents out.new) result × (poller.new ≡ poller.old)) }
{
    match outcome_of(alloc, poller, unit, models) {
        Ok(outcome) => outcome.tell(out),
        Err(AllocError) => tell_no_memory(out),
    }
}

/// What is told of a unit.
fn outcome_of<L: Link>(
    alloc: Global,
    poller: &mut Poller<L>,
    unit: u8,
    models: &[ModelDef],
) -> Result<CommandOutcome, AllocError>
    ensures told { poller.old.fault ≡ None → IfOk result (λ told. Probes unit models.now poller.old told poller.new) }
    ensures left { poller.old.fault ≡ None → OnErr result (LeavesOff unit poller.old poller.new) }
    ensures stands { IfSome poller.old.fault (λ fault. IfOk result (λ told. told ≡ unlinked fault) × (poller.new ≡ poller.old)) }
{
    match poller.search(unit, None) {
        Ok(Ok(map)) => outcome_by(alloc, poller, unit, models, &map),
        Ok(Err(fault)) => Ok(CommandOutcome::refused(no_map(alloc, fault.word())?)),
        Err(fault) => CommandOutcome::unlinked(alloc, fault),
    }
}

/// What is told of a unit, whose map this is.
fn outcome_by<L: Link>(
    alloc: Global,
    poller: &mut Poller<L>,
    unit: u8,
    models: &[ModelDef],
    map: &Map,
) -> Result<CommandOutcome, AllocError>
    requires { poller.old.fault ≡ None }
    ensures told { IfOk result (λ told. TellsMap unit models.now map.now poller.old told poller.new) }
    ensures left { OnErr result (LeavesOff unit poller.old poller.new) }
{
    match lines_of(alloc, poller, unit, models, map) {
        Ok(lines) => Ok(CommandOutcome {
            lines,
            status: 0,
            cause: None,
        }),
        Err(NoLines::Link(fault)) => CommandOutcome::unlinked(alloc, fault),
        Err(NoLines::OutOfMemory) => Err(AllocError),
    }
}

/// Why the models of a unit aren't told.
enum NoLines {
    Link(LinkFault),
    OutOfMemory,
}

/// The lines of a map's models, and where it ends.
fn lines_of<L: Link>(
    alloc: Global,
    poller: &mut Poller<L>,
    unit: u8,
    models: &[ModelDef],
    map: &Map,
) -> Result<Vec<u8>, NoLines>
    requires { poller.old.fault ≡ None }
    ensures read { IfOk result (λ lines. ReadsMap unit models.now map.now poller.old lines.items poller.new) }
    ensures stopped { IfErr result (λ cause. StopsBy cause unit poller.old poller.new) }
{
    let mut lines = Vec::new(alloc);
    for block in map.blocks() {
        if let Err(cause) = push_block(&mut lines, alloc, poller, unit, models, block) {
            return Err(cause);
        }
    }
    match push_end(&mut lines, alloc, map.end()) {
        Ok(()) => Ok(lines),
        Err(AllocError) => Err(NoLines::OutOfMemory),
    }
}

/// Appends the line of a model, and below it those of its points.
fn push_block<L: Link>(
    lines: &mut Vec<u8>,
    alloc: Global,
    poller: &mut Poller<L>,
    unit: u8,
    models: &[ModelDef],
    block: &Block,
) -> Result<(), NoLines>
    requires { poller.old.fault ≡ None }
    ensures read { OnOk result ((points : List ℕ) × (lines.new.items ≡ (lines.old.items ++ model_line block.now) ++ points)
        × PointsRead unit block.now (definition_of models.now block.now.id) poller.old points poller.new) }
    ensures stopped { IfErr result (λ cause. StopsBy cause unit poller.old poller.new) }
{
    match push_model(lines, alloc, block) {
        Ok(()) => {
            let model = definition_of(models, block.id);
            push_points(lines, alloc, poller, unit, block, model)
        }
        Err(AllocError) => Err(NoLines::OutOfMemory),
    }
}

/// The definition of an ID; of several the last one counts.
fn definition_of(models: &[ModelDef], id: u16) -> Option<&ModelDef>
    ensures { option_map (λ m. m.now) result ≡ definition_of models.now id }
{
    models.iter().rev().find(|model| model.id == id)
}

/// Appends the lines of a model's points, where it has a definition and the unit gives its registers.
fn push_points<L: Link>(
    lines: &mut Vec<u8>,
    alloc: Global,
    poller: &mut Poller<L>,
    unit: u8,
    block: &Block,
    model: Option<&ModelDef>,
) -> Result<(), NoLines>
    requires { poller.old.fault ≡ None }
    ensures read { OnOk result ((points : List ℕ) × (lines.new.items ≡ lines.old.items ++ points)
        × PointsRead unit block.now (option_map (λ m. m.now) model.entry) poller.old points poller.new) }
    ensures stopped { IfErr result (λ cause. StopsBy cause unit poller.old poller.new) }
{
    let Some(model) = model else {
        return Ok(());
    };
    match poller.ask(unit, &points_request(block, model)) {
        Ok(answer) => match push_answer(lines, alloc, model, &answer) {
            Ok(()) => Ok(()),
            Err(AllocError) => Err(NoLines::OutOfMemory),
        },
        Err(fault) => Err(NoLines::Link(fault)),
    }
}

/// Appends the lines of the points in the words that came; other answers show none.
fn push_answer(
    lines: &mut Vec<u8>,
    alloc: Global,
    model: &ModelDef,
    answer: &Answer,
) -> Result<(), AllocError>
    ensures ok { OnOk result (lines.new.items ≡ lines.old.items ++ points_by model.now answer.now) }
{
    match answer {
        Answer::Words(words) => push_present(lines, alloc, model, words.as_slice()),
        Answer::Exception(_) | Answer::Wrote | Answer::Mismatch | Answer::Stale => Ok(()),
    }
}

/// The request for a model's points: the registers that both the unit and the definition have.
fn points_request(block: &Block, model: &ModelDef) -> Request
    ensures request { result ≡ points_request block.now model.now }
    ensures quantity { HasQuantity result }
{
    Request::Read {
        addr: block.addr,
        qty: block.length.min(model.length) + HEADER,
    }
}

/// Appends the lines of the points that are present in a model's registers.
fn push_present(
    lines: &mut Vec<u8>,
    alloc: Global,
    model: &ModelDef,
    words: &[u16],
) -> Result<(), AllocError>
    ensures ok { OnOk result (lines.new.items ≡ lines.old.items ++ point_lines model.now.points words.now) }
{
    for point in model.points.as_slice() {
        push_number(lines, alloc, point, words)?;
    }
    Ok(())
}

/// Appends the line of a point, where it is shown and present.
fn push_number(
    lines: &mut Vec<u8>,
    alloc: Global,
    point: &Point,
    words: &[u16],
) -> Result<(), AllocError>
    ensures ok { OnOk result (lines.new.items ≡ lines.old.items ++ shown_line point.now.name (shown_number point.now words.now)) }
{
    match number_of(point, words) {
        Some(number) => push_point(lines, alloc, point.name.as_str(), number),
        None => Ok(()),
    }
}

/// The number in a point's registers, where it is shown: neither a header's nor a pad or a text, and present.
fn number_of(point: &Point, words: &[u16]) -> Option<i128>
    ensures { result ≡ shown_number point.now words.now }
{
    if point.offset < HEADER || !is_numeric(point.kind) {
        return None;
    }
    let words = registers_at(words, point.offset, point.kind.size())?;
    value(point.kind, words)
}

/// Whether points of this kind hold numbers: pads and texts don't.
fn is_numeric(kind: Kind) -> bool
    ensures result { result ≡ is_numeric kind }
    ensures numeric { result ≡ true → kind ≢ kinds.String }
{
    !matches!(kind, Kind::String | Kind::Pad)
}
