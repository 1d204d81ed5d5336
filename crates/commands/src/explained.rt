//! The command `explain`: a program with what the verdict knows before each of its instructions.
ghost use Rattle.std.specs.Prelude.{◌≡◌, map, string_bytes, IfOk, Ok};
ghost use Rattle.il_assemble.specs.Elaboration.{elaborated};
ghost use Rattle.il_assemble.specs.Texts.{elaborated_text};
ghost use Rattle.il_reader.specs.Reading.{reading};
ghost use Rattle.commands.specs.Explained.{EndsRefused, ExplainsImage, ExplainsProgram, ExplainsSite, ExplainsTexts, IsExplained};
ghost use Rattle.commands.specs.Told.{refused_with};

use crate::accepted::DEPTH;
use crate::definitions::definitions;
use crate::outcome::{CommandOutcome, tell_no_memory, verdict_line};
use crate::program_table::ProgramTable;
use crate::refusal::CommandRefusal;
use file_keys::TomlFile;
use il_assemble::assemble;
use il_assemble::laws::texts_keep_the_limits;
use il_reader::{Program, read};
use model_defs::ModelDef;
use scan_code::Image;
use site_model::Site;
use std::alloc::{AllocError, Global};
use std::io::Write;
use verifier::verify::verify;
use verifier::{Refused, RefusedAt};

/// Prints a program that is judged for a site as the verdict sees it: the lines of `table`, to the end or to the instruction
/// that is refused. After a refusal, of the definitions, the site or the program, comes its line. Gives the status, that of
/// `check`, and the cause of a refusal.
pub fn explain<T: ProgramTable, W: Write>(
    alloc: Global,
    site: &TomlFile<'_>,
    program: &str,
    defs: &[String],
    table: &T,
    out: &mut W,
) -> (u8, Option<CommandRefusal>)
    ensures { IsExplained site.now program.now (map string_bytes defs.now) (W.contents out.old) (W.contents out.new) result.0 }
{
    match outcome_of(alloc, site, program, defs, table) {
        Ok(outcome) => (outcome.tell(out), outcome.cause),
        Err(AllocError) => (tell_no_memory(out), None),
    }
}

/// What is told of a program, a site and definitions.
fn outcome_of<T: ProgramTable>(
    alloc: Global,
    site: &TomlFile<'_>,
    program: &str,
    defs: &[String],
    table: &T,
) -> Result<CommandOutcome, AllocError>
    ensures { IfOk result (ExplainsTexts site.now program.now (map string_bytes defs.now)) }
{
    match definitions(alloc, defs) {
        Ok(models) => outcome_over(alloc, site, program, models, table),
        Err(fault) => CommandOutcome::undefined(alloc, fault),
    }
}

/// The same over model definitions.
fn outcome_over<T: ProgramTable>(
    alloc: Global,
    site: &TomlFile<'_>,
    program: &str,
    models: Vec<ModelDef>,
    table: &T,
) -> Result<CommandOutcome, AllocError>
    ensures { IfOk result (ExplainsSite models.items site.now program.now) }
{
    match Site::read_file(alloc, site, models.as_slice()) {
        Ok(site) => outcome_for(alloc, site, program, table),
        Err(placed) => CommandOutcome::no_site(alloc, models, placed),
    }
}

/// The same for a site, which goes along where the program is refused.
fn outcome_for<T: ProgramTable>(
    alloc: Global,
    site: Site,
    text: &str,
    table: &T,
) -> Result<CommandOutcome, AllocError>
    ensures { IfOk result (ExplainsProgram site (reading text.now)) }
{
    match outcome_on(alloc, &site, text, table) {
        Ok(outcome) => Ok(outcome.with_site(site)),
        Err(AllocError) => Err(AllocError),
    }
}

/// The same on a site.
fn outcome_on<T: ProgramTable>(
    alloc: Global,
    site: &Site,
    text: &str,
    table: &T,
) -> Result<CommandOutcome, AllocError>
    ensures { IfOk result (ExplainsProgram site.now (reading text.now)) }
{
    texts_keep_the_limits();
    match read(alloc, text) {
        Ok(program) => outcome_of_program(alloc, site, text, program, table),
        Err(fault) => CommandOutcome::unread(alloc, text, fault),
    }
}

/// The same of a program as it was read.
fn outcome_of_program<T: ProgramTable>(
    alloc: Global,
    site: &Site,
    text: &str,
    program: Program,
    table: &T,
) -> Result<CommandOutcome, AllocError>
    requires { elaborated program ≡ elaborated_text program }
    ensures { IfOk result (ExplainsProgram site.now (Ok program)) }
{
    match assemble(alloc, &program) {
        Ok(image) => outcome_of_image(alloc, site, text, program, image, table),
        Err(fault) => CommandOutcome::unassembled(alloc, program, fault),
    }
}

/// The same of its image.
fn outcome_of_image<T: ProgramTable>(
    alloc: Global,
    site: &Site,
    text: &str,
    program: Program,
    image: Image,
    table: &T,
) -> Result<CommandOutcome, AllocError>
    ensures { IfOk result (ExplainsImage site.now image) }
{
    match verify::<DEPTH>(alloc, image, site) {
        Ok(verified) => outcome_of_accepted(alloc, site, text, &program, verified.image(), table),
        Err(refused) => outcome_of_refused(alloc, site, text, program, refused, table),
    }
}

/// What is told of a program that is accepted: the whole table.
fn outcome_of_accepted<T: ProgramTable>(
    alloc: Global,
    site: &Site,
    text: &str,
    program: &Program,
    image: &Image,
    table: &T,
) -> Result<CommandOutcome, AllocError>
    ensures { IfOk result (λ told. told.status ≡ 0) }
{
    let lines = table.lines(alloc, text, program, image, site, None)?;
    Ok(CommandOutcome::listed(lines))
}

/// What is told of a program that the verdict refuses.
fn outcome_of_refused<T: ProgramTable>(
    alloc: Global,
    site: &Site,
    text: &str,
    program: Program,
    refused: Refused,
    table: &T,
) -> Result<CommandOutcome, AllocError>
    ensures { IfOk result (EndsRefused refused.kind refused.at) }
{
    match refused_lines(alloc, site, text, &program, &refused, table) {
        Ok(lines) => {
            Ok(CommandOutcome::caused(lines, CommandRefusal::Unverified(program, refused, None)))
        }
        Err(AllocError) => Err(AllocError),
    }
}

/// The table to the instruction that is refused, and the line of the refusal.
fn refused_lines<T: ProgramTable>(
    alloc: Global,
    site: &Site,
    text: &str,
    program: &Program,
    refused: &Refused,
    table: &T,
) -> Result<String, AllocError>
    ensures { IfOk result (λ lines. EndsRefused refused.now.kind refused.now.at (refused_with (string_bytes lines))) }
{
    let line = verdict_line(alloc, refused)?;
    let at = refused_instruction(refused);
    let mut lines = table.lines(alloc, text, program, &refused.image, site, at)?;
    lines.push_str(line.as_str())?;
    Ok(lines)
}

/// The number of the instruction that is refused; None where it isn't one that is refused.
fn refused_instruction(refused: &Refused) -> Option<usize> {
    match refused.at {
        RefusedAt::Instruction(number) => Some(number),
        RefusedAt::Tag(_) => Some(0),
        RefusedAt::Program => None,
    }
}
