//! What breaks a rule in a list of numbers: the models of a gateway or of a device, the units behind a meter.
use crate::finding::{Finding, Rule, Stands};
use crate::looking::first_repeated;
use file_keys::list_at;
use model_defs::ModelDef;
use site_model::rules::definition_of;
use toml::Value;

/// The first model that no definition has.
pub(crate) fn undefined<'a>(entry: &'a Value, defs: &[ModelDef]) -> Option<Finding<'a>> {
    for model in list_at(entry, "models")? {
        let number = model.as_integer()?;
        if definition_of(defs, number).is_none() {
            let rule = Rule::Words("has no definition");
            return Some(Finding::by("models", Stands::Number(number), rule));
        }
    }
    None
}

/// Models that don't begin with 1, or else those that have no room.
pub(crate) fn misplaced(entry: &Value) -> Finding<'static> {
    if begins_with_one(entry) {
        Finding::of("models", "don't end by register 65535").helped(
            "take models away, or begin the map at a lower base",
        )
    } else {
        Finding::of("models", "don't begin with 1").helped("put 1 first, the common model")
    }
}

pub(crate) fn begins_with_one(entry: &Value) -> bool {
    match list_at(entry, "models") {
        Some(models) => match models.first() {
            Some(first) => first.as_integer() == Some(1),
            None => false,
        },
        None => false,
    }
}

/// The first number of a list that is there twice.
pub(crate) fn repeated<'a>(entry: &'a Value, key: &'static str) -> Option<Finding<'a>> {
    let number = first_repeated(list_at(entry, key)?.as_slice())?;
    let rule = Rule::Words("is there twice");
    Some(Finding::by(key, Stands::Number(number), rule))
}
