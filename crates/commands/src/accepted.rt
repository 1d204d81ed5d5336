//! A program that is accepted for a site.
ghost use Rattle.std.specs.Prelude.{◌≡◌, map, string_bytes, IfOk, Ok};
ghost use Rattle.il_assemble.specs.Elaboration.{elaborated};
ghost use Rattle.il_assemble.specs.Texts.{elaborated_text};
ghost use Rattle.il_reader.specs.Reading.{reading};
ghost use Rattle.commands.specs.Accepted.{Gives, GivesProgram, GivesSite, GivesVerdict, GivesVerified};

use crate::definitions::definitions;
use crate::outcome::CommandOutcome;
use file_keys::TomlFile;
pub use gateway::DEPTH;
use il_assemble::assemble;
use il_assemble::laws::texts_keep_the_limits;
use il_reader::{Program, read};
use model_defs::ModelDef;
use scan_code::Image;
use site_model::Site;
use std::alloc::{AllocError, Global};
use verifier::Verified;
use verifier::verify::verify;

/// A site, and a program that was accepted for it.
#[derive(Drop)]
pub struct Accepted {
    pub site: Site,
    pub verified: Verified<DEPTH>,
}

/// The program of a text that is accepted for the site of a text, by the shipped model definitions and those of the
/// texts `defs`, of which the last one of an ID counts; or what is told of the first refusal, of the definitions, the
/// site and the program in this order.
pub fn accept(
    alloc: Global,
    site: &TomlFile<'_>,
    program: &str,
    defs: &[String],
) -> Result<Result<Accepted, CommandOutcome>, AllocError>
    ensures { IfOk result (Gives site.now program.now (map string_bytes defs.now)) }
{
    match definitions(alloc, defs) {
        Ok(models) => accept_over(alloc, site, program, models),
        Err(fault) => Ok(Err(CommandOutcome::undefined(alloc, fault)?)),
    }
}

/// The same over model definitions.
fn accept_over(
    alloc: Global,
    site: &TomlFile<'_>,
    program: &str,
    models: Vec<ModelDef>,
) -> Result<Result<Accepted, CommandOutcome>, AllocError>
    ensures { IfOk result (GivesSite models.items site.now program.now) }
{
    match Site::read_file(alloc, site, models.as_slice()) {
        Ok(site) => accept_on(alloc, site, program),
        Err(placed) => Ok(Err(CommandOutcome::no_site(alloc, models, placed)?)),
    }
}

/// The same on a site.
fn accept_on(
    alloc: Global,
    site: Site,
    text: &str,
) -> Result<Result<Accepted, CommandOutcome>, AllocError>
    ensures { IfOk result (GivesProgram site (reading text.now)) }
{
    match accept_program(alloc, &site, text) {
        Ok(Ok(verified)) => Ok(Ok(Accepted { site, verified })),
        Ok(Err(outcome)) => Ok(Err(outcome.with_site(site))),
        Err(AllocError) => Err(AllocError),
    }
}

/// The program of a text that is accepted for a site that was read; or what is told of its refusal.
pub fn accept_program(
    alloc: Global,
    site: &Site,
    text: &str,
) -> Result<Result<Verified<DEPTH>, CommandOutcome>, AllocError>
    ensures { IfOk result (GivesVerified site.now (reading text.now)) }
{
    texts_keep_the_limits();
    match read(alloc, text) {
        Ok(program) => verified_program(alloc, site, program),
        Err(fault) => Ok(Err(CommandOutcome::unread(alloc, text, fault)?)),
    }
}

/// The same of a program as it was read.
fn verified_program(
    alloc: Global,
    site: &Site,
    program: Program,
) -> Result<Result<Verified<DEPTH>, CommandOutcome>, AllocError>
    requires { elaborated program ≡ elaborated_text program }
    ensures { IfOk result (GivesVerified site.now (Ok program)) }
{
    match assemble(alloc, &program) {
        Ok(image) => judged(alloc, site, program, image),
        Err(fault) => Ok(Err(CommandOutcome::unassembled(alloc, program, fault)?)),
    }
}

/// The verdict on a program's image.
fn judged(
    alloc: Global,
    site: &Site,
    program: Program,
    image: Image,
) -> Result<Result<Verified<DEPTH>, CommandOutcome>, AllocError>
    ensures { IfOk result (GivesVerdict site.now image) }
{
    match verify::<DEPTH>(alloc, image, site) {
        Ok(verified) => Ok(Ok(verified)),
        Err(refused) => {
            let outcome = CommandOutcome::unverified(alloc, program, refused)?;
            Ok(Err(outcome))
        }
    }
}
