//! The keys of a model definition that are known, and which others stand there.
use crate::finding::{EntryName, entry_named};
use crate::unread_keys::UnreadKeys;
use serde_json::Value;
use std::alloc::{AllocError, Global};

// Those of the published models: most of them are for people, and nothing here reads them.
const MODEL: &[&str] = &[
    "id", "group", "label", "desc", "detail", "notes", "comments",
];

const GROUP: &[&str] = &[
    "name", "type", "count", "points", "groups", "label", "desc", "detail", "notes", "comments",
];

const POINT: &[&str] = &[
    "name",
    "type",
    "size",
    "count",
    "sf",
    "units",
    "access",
    "mandatory",
    "static",
    "value",
    "symbols",
    "standards",
    "label",
    "desc",
    "detail",
    "notes",
    "comments",
];

/// Looks at the keys of a model definition (SunSpec Device Information Model Specification, model definitions).
pub(crate) fn push_unread_of_definition(
    alloc: Global,
    unread: &mut UnreadKeys,
    tree: &Value,
) -> Result<(), AllocError> {
    push_unread(alloc, unread, EntryName::Alone("the model"), tree, MODEL)?;
    let Some(group) = tree.get("group") else {
        return Ok(());
    };
    push_unread(alloc, unread, EntryName::Alone("group"), group, GROUP)?;
    let Some(points) = group.get("points").and_then(Value::as_array) else {
        return Ok(());
    };
    for (number, point) in points.as_slice().iter().enumerate() {
        push_unread(alloc, unread, point_name(point, number), point, POINT)?;
    }
    Ok(())
}

fn point_name(point: &Value, number: usize) -> EntryName<'_> {
    entry_named("point", point.get("name").and_then(Value::as_str), number)
}

/// Looks at the keys of an object.
fn push_unread(
    alloc: Global,
    unread: &mut UnreadKeys,
    entry: EntryName<'_>,
    object: &Value,
    known: &[&'static str],
) -> Result<(), AllocError> {
    let Some(object) = object.as_object() else {
        return Ok(());
    };
    for (key, _) in object {
        unread.look_at(alloc, entry, key.as_str(), known)?;
    }
    Ok(())
}
