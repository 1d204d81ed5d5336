//! Sites, programs and definitions of models, from texts.
use crate::bytes::needed;
use crate::fault::Shown;
use crate::texts::Texts;
use gateway::DEPTH;
use il_assemble::assemble;
use inverter_sim::Plant;
use model_defs::{ModelDef, shipped_models};
use scan_code::Image;
use scan_vm::Machine;
use site_model::Site;
use std::alloc::Global;
use verifier::verify::verify;

/// The definition that a case may add to the shipped ones.
const ADDED: &str = "model.json";

/// The shipped definitions, and after them the one that the case adds.
pub(crate) fn definitions(alloc: Global, texts: &Texts<'_>) -> Shown<Vec<ModelDef>> {
    let mut models = Vec::new(alloc);
    for (_, text) in shipped_models() {
        models.push(definition(alloc, *text)?)?;
    }
    if let Ok(text) = texts.get(ADDED) {
        models.push(definition(alloc, text)?)?;
    }
    Ok(models)
}

fn definition(alloc: Global, text: &str) -> Shown<ModelDef> {
    needed(model_defs::read(alloc, text.as_bytes()).ok())
}

/// The site of a text.
pub(crate) fn site(alloc: Global, texts: &Texts<'_>, name: &str) -> Shown<Site> {
    let models = definitions(alloc, texts)?;
    needed(Site::read(alloc, texts.get(name)?, &models).ok())
}

/// The plant of a text.
pub(crate) fn plant(alloc: Global, texts: &Texts<'_>, name: &str) -> Shown<Plant> {
    let models = definitions(alloc, texts)?;
    needed(Plant::read(alloc, texts.get(name)?, &models).ok())
}

/// A machine for a program that is accepted for a site.
pub(crate) fn machine(alloc: Global, site: &Site, program: &str) -> Shown<Machine<DEPTH>> {
    let verified = needed(verify(alloc, image(alloc, program)?, site).ok())?;
    Ok(Machine::new(alloc, verified)?)
}

fn image(alloc: Global, text: &str) -> Shown<Image> {
    let program = needed(il_reader::read(alloc, text).ok())?;
    needed(assemble(alloc, &program).ok())
}
