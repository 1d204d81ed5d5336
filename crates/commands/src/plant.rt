//! The plant of a plant file.
ghost use Rattle.std.specs.Prelude.{◌≡◌, map, string_bytes, IfErr, IfOk, Ok, OnOk};
ghost use Rattle.commands.specs.Simulate.{GivesDefined, GivesPlant, TellsNoPlant, TellsPlant};

use crate::definitions::definitions;
use crate::obeyed::Obeyed;
use crate::outcome::{CommandOutcome, tell_no_memory};
use file_keys::TomlFile;
use inverter_sim::Plant;
use model_defs::ModelDef;
use std::alloc::{AllocError, Global};
use std::io::Write;

/// The plant of a file over the shipped definitions and those of the texts, or what is told of its fault.
pub fn plant_of(
    alloc: Global,
    plant: &TomlFile<'_>,
    defs: &[String],
) -> Result<Result<Plant, CommandOutcome>, AllocError>
    ensures { IfOk result (TellsPlant plant.now (map string_bytes defs.now)) }
{
    match definitions(alloc, defs) {
        Ok(models) => plant_over(alloc, plant, models),
        Err(fault) => Ok(Err(CommandOutcome::undefined(alloc, fault)?)),
    }
}

/// The same, and what is told of a fault is printed: the plant, of which nothing is printed, or what came of that.
pub fn plant_told<W: Write>(
    alloc: Global,
    plant: &TomlFile<'_>,
    defs: &[String],
    out: &mut W,
) -> Result<Plant, Obeyed>
    ensures given { IfOk result (λ p. GivesDefined plant.now (map string_bytes defs.now) (Ok p)) }
    ensures unprinted { OnOk result (W.contents out.new ≡ W.contents out.old) }
    ensures told { IfErr result (λ o. TellsNoPlant plant.now (map string_bytes defs.now) (W.contents out.old) (W.contents out.new) o.status) }
{
    match plant_of(alloc, plant, defs) {
        Ok(Ok(plant)) => Ok(plant),
        Ok(Err(outcome)) => Err(Obeyed::of((outcome.tell(out), outcome.cause))),
        Err(AllocError) => Err(Obeyed::of((tell_no_memory(out), None))),
    }
}

/// The plant of a file over model definitions, or what is told of its fault.
fn plant_over(
    alloc: Global,
    plant: &TomlFile<'_>,
    models: Vec<ModelDef>,
) -> Result<Result<Plant, CommandOutcome>, AllocError>
    ensures { IfOk result (GivesPlant models.items plant.now) }
{
    match Plant::read_file(alloc, plant, models.as_slice()) {
        Ok(plant) => Ok(Ok(plant)),
        Err(placed) => Ok(Err(CommandOutcome::no_plant(alloc, models, placed)?)),
    }
}
