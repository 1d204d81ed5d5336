//! What breaks a rule in the gateway's section, and in a device's.
use crate::finding::{Finding, Rule, stands_at};
use crate::keys::{BASE, DEVICE, GATEWAY, MOST_REWRITE, UNIT};
use crate::looking::{first_alike, first_broken, first_outside};
use crate::models::{begins_with_one, misplaced, repeated, undefined};
use file_keys::number_at;
use model_defs::ModelDef;
use site_model::SiteFault;
use toml::Value;

pub(super) fn gateway_finding<'a>(
    gateway: &'a Value,
    defs: &[ModelDef],
    fault: SiteFault,
) -> Option<Finding<'a>> {
    match fault {
        SiteFault::MissingKey => first_broken(gateway, &GATEWAY),
        SiteFault::UnknownModel => undefined(gateway, defs),
        SiteFault::BadRange => Some(unfit_gateway(gateway)),
        _ => None,
    }
}

fn unfit_gateway(gateway: &Value) -> Finding<'_> {
    if let Some(finding) = first_outside(gateway, &[UNIT, BASE]) {
        return finding;
    }
    match twice_in(gateway) {
        Some(finding) => finding,
        None => misplaced(gateway),
    }
}

/// The model that is there twice, after 1.
fn twice_in(gateway: &Value) -> Option<Finding<'_>> {
    if !begins_with_one(gateway) {
        return None;
    }
    Some(repeated(gateway, "models")?.helped("take one of the two away"))
}

pub(super) fn device_finding<'a>(
    before: &'a [Value],
    entry: &'a Value,
    fault: SiteFault,
) -> Option<Finding<'a>> {
    match fault {
        SiteFault::MissingKey => first_broken(entry, &DEVICE),
        SiteFault::BadRange => Some(unfit_device(entry)),
        SiteFault::Duplicate => Some(known_device(before, entry)),
        _ => None,
    }
}

fn unfit_device(entry: &Value) -> Finding<'_> {
    if let Some(finding) = first_outside(entry, &[UNIT, BASE]) {
        return finding;
    }
    match number_at(entry, "write") {
        None | Some(6 | 16) => {
            let rule = Rule::Within(0, MOST_REWRITE);
            Finding::by("rewrite", stands_at(entry, "rewrite"), rule)
        }
        Some(_) => Finding::at(entry, "write", "is neither 6 nor 16").helped(
            "write 16, or 6 for a device that takes one register at a time",
        ),
    }
}

fn known_device<'a>(before: &'a [Value], entry: &'a Value) -> Finding<'a> {
    if let Some(other) = first_alike("[[device]]", before, entry, &["name"]) {
        return Finding::repeating(entry, "name", "is the name of", other);
    }
    match first_alike("[[device]]", before, entry, &["unit"]) {
        Some(other) => Finding::repeating(entry, "unit", "is the unit of", other),
        None => Finding::at(entry, "unit", "is the unit of a device before it"),
    }
}
