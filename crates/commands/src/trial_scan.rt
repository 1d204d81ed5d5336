//! The command without arguments: a trial scan of a program by itself.
ghost use Rattle.std.specs.Prelude.{◌≡◌, IfOk};
ghost use Rattle.il_assemble.specs.Elaboration.{elaborated};
ghost use Rattle.il_assemble.specs.Texts.{elaborated_text};
ghost use Rattle.scan_code.specs.Image.{Image};
ghost use Rattle.scan_vm.specs.Trial.{started};
ghost use Rattle.commands.specs.Input as input;
ghost use Rattle.commands.specs.Outcome.{IsTrial, TellsGivenImage, TellsInput, TellsTree};
ghost use Rattle.commands.specs.Report.{bad_input_line};
ghost use Rattle.commands.specs.Told.{refused_with};

use crate::given::readings_given;
use crate::input::program_length;
use crate::input_fault::RefusedInput;
use crate::outcome::{CommandOutcome, tell_no_memory};
use crate::refusal::CommandRefusal;
use crate::report::bad_input;
use crate::scan::scan_outcome;
use il_assemble::assemble;
use il_assemble::laws::texts_keep_the_limits;
use il_reader::{Program, read};
use scan_code::Image;
use scan_vm::Trial;
use std::alloc::{AllocError, Global};
use std::io::Write;

/// Runs one scan of the program that the input begins with, and prints each variable, each output,
/// and the number of steps or the trap; or why there is no scan. Gives the status: 0, or 1 for a
/// trap, a refusal or a failed write.
pub fn trial<W: Write>(alloc: Global, input: &str, out: &mut W) -> u8
    ensures { IsTrial input.now (W.contents out.old) (W.contents out.new) result }
{
    try_input(alloc, input, out).0
}

/// The same, and the cause where the text of the program is refused or the scan traps.
pub fn try_input<W: Write>(alloc: Global, input: &str, out: &mut W) -> (u8, Option<CommandRefusal>)
    ensures { IsTrial input.now (W.contents out.old) (W.contents out.new) result.0 }
{
    match outcome_of(alloc, input) {
        Ok(outcome) => (outcome.tell(out), outcome.cause),
        Err(AllocError) => (tell_no_memory(out), None),
    }
}

/// What is told of the program that the input begins with.
fn outcome_of(alloc: Global, input: &str) -> Result<CommandOutcome, AllocError>
    ensures { IfOk result (TellsInput input.now) }
{
    texts_keep_the_limits();
    let (text, inputs) = input.split_at(program_length(input.as_bytes()));
    match read(alloc, text) {
        Ok(program) => outcome_of_program(alloc, program, inputs.as_bytes()),
        Err(fault) => CommandOutcome::unread(alloc, text, fault),
    }
}

/// What is told of a program, with the input lines after its text.
fn outcome_of_program(
    alloc: Global,
    program: Program,
    inputs: &[u8],
) -> Result<CommandOutcome, AllocError>
    requires { elaborated program ≡ elaborated_text program }
    ensures { IfOk result (TellsTree program (input.lines_of inputs.now)) }
{
    match assemble(alloc, &program) {
        Ok(image) => outcome_of_image(alloc, program, image, inputs),
        Err(fault) => CommandOutcome::unassembled(alloc, program, fault),
    }
}

/// What is told of an image, with the input lines.
fn outcome_of_image(
    alloc: Global,
    program: Program,
    image: Image,
    inputs: &[u8],
) -> Result<CommandOutcome, AllocError>
    ensures { IfOk result (TellsGivenImage image (input.lines_of inputs.now)) }
{
    match Trial::new(alloc, image) {
        Ok(trial) => outcome_of_trial(alloc, program, trial, inputs),
        Err(AllocError) => Err(AllocError),
    }
}

/// What is told of the first scan of a trial, with the input lines.
fn outcome_of_trial(
    alloc: Global,
    program: Program,
    trial: Trial,
    inputs: &[u8],
) -> Result<CommandOutcome, AllocError>
    ensures { (image : Image) → trial ≡ started image → IfOk result (TellsGivenImage image (input.lines_of inputs.now)) }
{
    match readings_given(alloc, trial.image().tags.as_slice(), inputs) {
        Ok(Ok(readings)) => scan_outcome(alloc, program, trial, readings.as_slice()),
        Ok(Err(number)) => refused_input(alloc, &program, trial, inputs, number),
        Err(AllocError) => Err(AllocError),
    }
}

/// What is told of an input line that is refused, by its number.
fn refused_input(
    alloc: Global,
    program: &Program,
    trial: Trial,
    inputs: &[u8],
    number: usize,
) -> Result<CommandOutcome, AllocError>
    ensures { IfOk result (λ o. o ≡ refused_with (bad_input_line number)) }
{
    match bad_input(alloc, number) {
        Ok(line) => {
            let refused = RefusedInput::new(program, trial, inputs, number);
            Ok(CommandOutcome::caused(line, CommandRefusal::Input(refused)))
        }
        Err(AllocError) => Err(AllocError),
    }
}
