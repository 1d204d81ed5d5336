//! The model definitions by which a device is probed.
ghost use Rattle.std.specs.Prelude.{◌≡◌, map, string_bytes, IfErr, IfOk, OnOk};
ghost use Rattle.commands.specs.Accepted.{TellsUndefined};
ghost use Rattle.commands.specs.Defined.{AreDefined};
ghost use Rattle.commands.specs.Obeyed.{TellsNoModels};

use crate::definitions::definitions;
use crate::obeyed::Obeyed;
use crate::outcome::{CommandOutcome, tell_no_memory};
use model_defs::ModelDef;
use std::alloc::{AllocError, Global};
use std::io::Write;

/// The shipped definitions and those of the texts, of which nothing is printed; or what came of telling the first text
/// that is none.
pub fn models_told<W: Write>(
    alloc: Global,
    defs: &[String],
    out: &mut W,
) -> Result<Vec<ModelDef>, Obeyed>
    ensures given { IfOk result (λ models. AreDefined (map string_bytes defs.now) models.items) }
    ensures unprinted { OnOk result (W.contents out.new ≡ W.contents out.old) }
    ensures told { IfErr result (λ o. TellsNoModels (map string_bytes defs.now) (W.contents out.old) (W.contents out.new) o.status) }
{
    match models_of(alloc, defs) {
        Ok(Ok(models)) => Ok(models),
        Ok(Err(outcome)) => Err(Obeyed::of((outcome.tell(out), outcome.cause))),
        Err(AllocError) => Err(Obeyed::of((tell_no_memory(out), None))),
    }
}

/// The shipped definitions and those of the texts, or what is told of the first text that is none.
fn models_of(
    alloc: Global,
    defs: &[String],
) -> Result<Result<Vec<ModelDef>, CommandOutcome>, AllocError>
    ensures defined { IfOk result (λ given. IfOk given (λ models. AreDefined (map string_bytes defs.now) models.items)) }
    ensures told { IfOk result (λ given. IfErr given (TellsUndefined (map string_bytes defs.now))) }
{
    match definitions(alloc, defs) {
        Ok(models) => Ok(Ok(models)),
        Err(fault) => Ok(Err(CommandOutcome::undefined(alloc, fault)?)),
    }
}
