//! What a trial scan prints.
ghost use Rattle.std.specs.Prelude.{◌≡◌, ◌++◌, IfOk, OnOk};
ghost use Rattle.scan_code.specs.Image.{Image};
ghost use Rattle.scan_vm.specs.Trial.{started};
ghost use Rattle.commands.specs.Outcome.{TellsImage, ending_line, ending_status, standing_lines};
ghost use Rattle.commands.specs.Report as report;

use crate::outcome::CommandOutcome;
use crate::refusal::CommandRefusal;
use crate::report::{push_named, push_steps, push_trap, shown};
use il_reader::Program;
use point_types::Reading;
use scan_code::Tag;
use scan_vm::{Scan, Trap, Trial};
use std::alloc::{AllocError, Global};

/// The outcome of the first scan of a trial of a program, on a reading for each tag.
pub(crate) fn scan_outcome(
    alloc: Global,
    program: Program,
    trial: Trial,
    readings: &[Reading],
) -> Result<CommandOutcome, AllocError>
    ensures { (image : Image) → trial ≡ started image → IfOk result (TellsImage image readings.now) }
{
    let mut trial = trial;
    match told_scan(alloc, &mut trial, readings) {
        Ok((outcome, trap)) => Ok(with_trap(outcome, program, trial, trap)),
        Err(AllocError) => Err(AllocError),
    }
}

/// What is told of the first scan of a trial, without a cause; and the trap that ended it, if any.
fn told_scan(
    alloc: Global,
    trial: &mut Trial,
    readings: &[Reading],
) -> Result<(CommandOutcome, Option<Trap>), AllocError>
    ensures { (image : Image) → trial.old ≡ started image → IfOk result (λ told. TellsImage image readings.now told.0) }
{
    let ending = trial.scan(readings);
    let mut lines = Vec::new(alloc);
    let status = push_scan(&mut lines, alloc, trial, ending)?;
    let outcome = CommandOutcome {
        lines,
        status,
        cause: None,
    };
    Ok((outcome, ending.err()))
}

/// The same with the trap as its cause.
fn with_trap(
    outcome: CommandOutcome,
    program: Program,
    trial: Trial,
    trap: Option<Trap>,
) -> CommandOutcome
    ensures { result ≡ outcome }
{
    let mut outcome = outcome;
    if let Some(trap) = trap {
        outcome.cause = Some(CommandRefusal::Trapped(program, trial, trap));
    }
    outcome
}

/// Appends the lines of a scan that ended so, and gives its status.
fn push_scan(
    lines: &mut Vec<u8>,
    alloc: Global,
    trial: &Trial,
    ending: Result<Scan, Trap>,
) -> Result<u8, AllocError>
    ensures ok { OnOk result (lines.new.items ≡ lines.old.items ++ standing_lines trial.now ++ ending_line ending) }
    ensures status { IfOk result (λ status. status ≡ ending_status ending) }
{
    push_variables(lines, alloc, trial)?;
    push_outputs(lines, alloc, trial)?;
    push_ending(lines, alloc, ending)
}

/// Appends the line of how a scan ended, and gives its status.
fn push_ending(
    lines: &mut Vec<u8>,
    alloc: Global,
    ending: Result<Scan, Trap>,
) -> Result<u8, AllocError>
    ensures ok { OnOk result (lines.new.items ≡ lines.old.items ++ ending_line ending) }
    ensures status { IfOk result (λ status. status ≡ ending_status ending) }
{
    match ending {
        Ok(scan) => {
            push_steps(lines, alloc, scan.steps)?;
            Ok(0)
        }
        Err(trap) => {
            push_trap(lines, alloc, trap.kind.word(), trap.at)?;
            Ok(1)
        }
    }
}

/// Appends the line of each variable, in the order of the declarations.
fn push_variables(lines: &mut Vec<u8>, alloc: Global, trial: &Trial) -> Result<(), AllocError>
    ensures ok { OnOk result (lines.new.items ≡ lines.old.items ++ report.variable_lines trial.now.image.vars trial.now.variables) }
{
    for (i, var) in trial.image().vars.as_slice().iter().enumerate() {
        let value = shown(alloc, var.kind, trial.var(i))?;
        push_named(lines, &var.name, value.as_str())?;
    }
    Ok(())
}

/// Appends the line of each output, in the order of the declarations.
fn push_outputs(lines: &mut Vec<u8>, alloc: Global, trial: &Trial) -> Result<(), AllocError>
    ensures ok { OnOk result (lines.new.items ≡ lines.old.items ++ report.output_lines trial.now.image.tags trial.now.outputs) }
{
    for (i, tag) in trial.image().tags.as_slice().iter().enumerate() {
        push_output(lines, alloc, tag, trial.output(i))?;
    }
    Ok(())
}

/// Appends the line of an output, its value or `unset`; nothing for an input.
fn push_output(
    lines: &mut Vec<u8>,
    alloc: Global,
    tag: &Tag,
    output: Option<i64>,
) -> Result<(), AllocError>
    ensures ok { OnOk result (lines.new.items ≡ lines.old.items ++ report.output_line tag.now output) }
{
    if !tag.output {
        return Ok(());
    }
    match output {
        Some(number) => push_named(lines, &tag.name, shown(alloc, tag.kind, number)?.as_str()),
        None => push_named(lines, &tag.name, "unset"),
    }
}
