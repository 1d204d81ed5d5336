//! The model definitions of a run: the shipped ones, and those that are handed in.
ghost use Rattle.std.specs.Prelude.{◌≡◌, ◌≢◌, ◌++◌, ◌∷◌, [], List, map, string_bytes, IfOk, IfErr, OnOk};
ghost use Rattle.model_defs.specs.declared.fault.DefFault.TheVariants as fault;
ghost use Rattle.model_defs.specs.declared.model.ModelDef.{ModelDef};
ghost use Rattle.model_defs.specs.Definition.{Breaks, IsRead};
ghost use Rattle.commands.specs.Defined.{AreDefined, AreRead, IsFirstBroken, IsUndefined};

use model_defs::{DefFault, ModelDef, read, shipped_models};
use std::alloc::Global;

/// The definitions that are shipped, and after them those of the texts, so that the last one of an ID counts; or the
/// fault of the first text that is none.
pub fn definitions(alloc: Global, texts: &[String]) -> Result<Vec<ModelDef>, DefFault>
    ensures read { IfOk result (λ models. AreDefined (map string_bytes texts.now) models.items) }
    ensures refused { IfErr result (λ e. e ≢ fault.OutOfMemory → IsUndefined (map string_bytes texts.now) e) }
{
    let mut models = Vec::new(alloc);
    push_shipped(alloc, &mut models, shipped_models())?;
    push_definitions(alloc, &mut models, texts)?;
    Ok(models)
}

/// Appends the definitions of models that are shipped, in order.
fn push_shipped(
    alloc: Global,
    models: &mut Vec<ModelDef>,
    shipped: &[(u16, &str)],
) -> Result<(), DefFault>
    ensures read { OnOk result (AreRead (map (λ model. model.1.now) shipped.now) models.old.items models.new.items) }
    ensures refused { IfErr result (λ e. e ≢ fault.OutOfMemory → IsFirstBroken (map (λ model. model.1.now) shipped.now) e) }
{
    for model in shipped {
        push_definition(alloc, models, model.1)?;
    }
    Ok(())
}

/// Appends the definitions of the texts, in order.
fn push_definitions(
    alloc: Global,
    models: &mut Vec<ModelDef>,
    texts: &[String],
) -> Result<(), DefFault>
    ensures read { OnOk result (AreRead (map string_bytes texts.now) models.old.items models.new.items) }
    ensures refused { IfErr result (λ e. e ≢ fault.OutOfMemory → IsFirstBroken (map string_bytes texts.now) e) }
{
    for text in texts {
        push_definition(alloc, models, text.as_str())?;
    }
    Ok(())
}

/// Appends the definition of a text.
fn push_definition(alloc: Global, models: &mut Vec<ModelDef>, text: &str) -> Result<(), DefFault>
    ensures read { OnOk result ((model : ModelDef) × IsRead text.now model
        × (models.new.items ≡ models.old.items ++ model ∷ [])) }
    ensures refused { IfErr result (λ e. e ≢ fault.OutOfMemory → Breaks text.now e) }
{
    match read(alloc, text.as_bytes()) {
        Ok(model) => {
            models.push(model)?;
            Ok(())
        }
        Err(fault) => Err(fault),
    }
}
