//! Where a text breaks a rule of model definitions.
use crate::finding::{EntryName, Finding, Rule, Stands, ValueKind, entry_named};
use crate::place::FilePlace;
use model_defs::rules::{kind_named, whole_number};
use model_defs::{DefFault, DefPart};
use note_text::{nearer, nearest_of};
use serde_json::{Error, Value};
use std::alloc::Global;

/// The words of the types that points may have.
const TYPES: &[&str] = &[
    "int16",
    "uint16",
    "acc16",
    "enum16",
    "bitfield16",
    "sunssf",
    "pad",
    "int32",
    "uint32",
    "acc32",
    "enum32",
    "bitfield32",
    "int64",
    "uint64",
    "acc64",
    "string",
];

/// Where a fault of that part of a model definition is found; None where memory was refused.
pub fn place_in_definition(
    alloc: Global,
    text: &[u8],
    part: DefPart,
    fault: DefFault,
) -> Option<FilePlace> {
    if fault == DefFault::OutOfMemory {
        return None;
    }
    match Value::from_slice(alloc, text) {
        Ok(tree) => place_in(alloc, &tree, part, fault),
        Err(error) => in_text(&error),
    }
}

fn in_text(error: &Error) -> Option<FilePlace> {
    let (line, column) = (error.line(), error.column());
    if line == 0 {
        return None;
    }
    Some(FilePlace::Text { line, column })
}

fn place_in(alloc: Global, tree: &Value, part: DefPart, fault: DefFault) -> Option<FilePlace> {
    if let Some(finding) = no_object(tree, part) {
        return FilePlace::found(alloc, "", EntryName::Alone("the model"), finding);
    }
    let entry = name_of(tree, part)?;
    let finding = found_at(tree, part, fault)?;
    FilePlace::found(alloc, "", entry, finding)
}

/// The list of points, where the one that breaks the rule is no object, so that it has no keys.
fn no_object(tree: &Value, part: DefPart) -> Option<Finding<'_>> {
    let DefPart::Point(number) = part else {
        return None;
    };
    if points_in(tree)?.get(number)?.is_object() {
        return None;
    }
    let rule = Rule::Unlike(ValueKind::Objects);
    Some(Finding::by("group.points", Stands::Other("array"), rule))
}

/// How a part of the definition is named.
fn name_of(tree: &Value, part: DefPart) -> Option<EntryName<'_>> {
    match part {
        DefPart::Model => Some(EntryName::Alone("the model")),
        DefPart::Point(number) => {
            let object = points_in(tree)?.get(number)?;
            Some(entry_named("point", text_at(object, "name"), number))
        }
    }
}

/// What breaks the rule in a part of the definition.
fn found_at(tree: &Value, part: DefPart, fault: DefFault) -> Option<Finding<'_>> {
    match part {
        DefPart::Model => Some(match of_whole(fault) {
            Some(whole) => whole,
            None => in_model(tree, fault),
        }),
        DefPart::Point(number) => {
            let object = points_in(tree)?.get(number)?;
            Some(in_point(tree, number, object, fault))
        }
    }
}

/// What is told of the points together.
fn of_whole(fault: DefFault) -> Option<Finding<'static>> {
    match fault {
        DefFault::BadHeader => Some(Finding::of(
            "group.points",
            "don't begin with ID and L, both uint16",
        )),
        DefFault::TooLong => Some(Finding::of(
            "group.points",
            "have more than 123 registers after ID and L",
        )),
        DefFault::Repeating => Some(Finding::of("group.groups", "is no empty list")),
        _ => None,
    }
}

fn in_model(tree: &Value, fault: DefFault) -> Finding<'_> {
    if fault == DefFault::BadType {
        return Finding::by("id", stands_at(tree, "id"), Rule::Within(1, 65534));
    }
    if !tree.is_object() {
        return Finding::by("the text", Stands::Nothing, Rule::Unlike(ValueKind::Object));
    }
    if !is_whole(tree, "id") {
        return unlike(tree, "id", ValueKind::Number);
    }
    match tree.get("group") {
        None => Finding::missing("group"),
        Some(group) => in_group(tree, group),
    }
}

fn in_group<'a>(tree: &'a Value, group: &'a Value) -> Finding<'a> {
    if !group.is_object() {
        return unlike(tree, "group", ValueKind::Object);
    }
    match group.get("points") {
        None => Finding::missing("group.points"),
        Some(points) => {
            Finding::by(
                "group.points",
                stands_for(points),
                Rule::Unlike(ValueKind::Objects),
            )
        }
    }
}

fn in_point<'a>(tree: &'a Value, number: usize, object: &'a Value, fault: DefFault) -> Finding<'a> {
    match fault {
        DefFault::BadType => bad_word(object),
        DefFault::BadSize => bad_size(object),
        DefFault::DuplicateName => known_name(tree, number, object),
        DefFault::BadScalePoint => bad_factor(tree, object),
        _ => unlike_point(object),
    }
}

fn bad_word(object: &Value) -> Finding<'_> {
    match kind_at(object) {
        None => {
            let finding = at(object, "type", "is no type that is served");
            finding.meaning(meant_type(object))
        }
        Some(_) => at(object, "access", "is neither R nor RW").helped("write R or RW"),
    }
}

/// The kind that the type of a point names.
fn kind_at(object: &Value) -> Option<point_types::Kind> {
    kind_named(text_at(object, "type")?)
}

fn meant_type(object: &Value) -> Option<&'static str> {
    nearest_of(TYPES, text_at(object, "type")?)
}

/// A size that isn't the one of its type.
fn bad_size(object: &Value) -> Finding<'_> {
    let words = match kind_at(object) {
        None | Some(point_types::Kind::String) => "is under 1, the least of a string",
        Some(kind) => match kind.size() {
            1 => "isn't 1, the registers of its type",
            2 => "isn't 2, the registers of its type",
            _ => "isn't 4, the registers of its type",
        },
    };
    at(object, "size", words)
}

/// The point before that has the same name.
fn known_name<'a>(tree: &'a Value, number: usize, object: &'a Value) -> Finding<'a> {
    let name = text_at(object, "name");
    for (place, other) in points_of(tree).iter().enumerate() {
        if place < number && text_at(other, "name") == name {
            let rule = Rule::Repeats("is the name of", entry_named("point", name, place));
            return Finding::by("name", stands_at(object, "name"), rule);
        }
    }
    at(object, "name", "is the name of a point before it")
}

/// A factor that is no point and no power of ten, with the point that may be meant.
fn bad_factor<'a>(tree: &'a Value, object: &'a Value) -> Finding<'a> {
    if is_whole(object, "sf") {
        return Finding::by("sf", stands_at(object, "sf"), Rule::Within(-10, 10));
    }
    let finding = at(object, "sf", "is the name of no point of type sunssf");
    finding.meaning(nearest_factor(tree, object))
}

fn nearest_factor<'a>(tree: &'a Value, object: &Value) -> Option<&'a str> {
    let written = text_at(object, "sf")?;
    let mut found = None;
    for point in points_of(tree) {
        if let Some(name) = factor_name(point) {
            found = nearer(found, name, written);
        }
    }
    found.map(|near| near.name)
}

/// The name of a point, where its type is sunssf.
fn factor_name(point: &Value) -> Option<&str> {
    match text_at(point, "type")? {
        "sunssf" => text_at(point, "name"),
        _ => None,
    }
}

/// The objects of the points.
fn points_of(tree: &Value) -> &[Value] {
    match points_in(tree) {
        Some(points) => points,
        None => &[],
    }
}

fn points_in(tree: &Value) -> Option<&[Value]> {
    let points = tree.get("group")?.get("points")?.as_array()?;
    Some(points.as_slice())
}

/// The first key that is missing or of another kind.
fn unlike_point(object: &Value) -> Finding<'_> {
    for key in ["name", "type"] {
        if text_at(object, key).is_none() {
            return unlike(object, key, ValueKind::Text);
        }
    }
    if !is_whole(object, "size") {
        return unlike(object, "size", ValueKind::Number);
    }
    if object.get("sf").is_some() && text_at(object, "sf").is_none() && !is_whole(object, "sf") {
        return unlike(object, "sf", ValueKind::TextOrNumber);
    }
    unlike(object, "access", ValueKind::Text)
}

/// What stands at a key and is of another kind, or that it is missing.
fn unlike<'a>(object: &'a Value, key: &'static str, kind: ValueKind) -> Finding<'a> {
    if object.get(key).is_none() {
        return Finding::missing(key);
    }
    Finding::by(key, stands_at(object, key), Rule::Unlike(kind))
}

fn text_at<'a>(object: &'a Value, key: &str) -> Option<&'a str> {
    object.get(key)?.as_str()
}

fn is_whole(object: &Value, key: &str) -> bool {
    match object.get(key) {
        Some(value) => whole_number(value).is_some(),
        None => false,
    }
}

/// What stands at a key, which breaks a rule in words.
fn at<'a>(object: &'a Value, key: &'static str, words: &'static str) -> Finding<'a> {
    Finding::by(key, stands_at(object, key), Rule::Words(words))
}

fn stands_at<'a>(object: &'a Value, key: &str) -> Stands<'a> {
    match object.get(key) {
        Some(value) => stands_for(value),
        None => Stands::Nothing,
    }
}

fn stands_for(value: &Value) -> Stands<'_> {
    if let Some(text) = value.as_str() {
        return Stands::Text(text);
    }
    if let Some(number) = value.as_i64() {
        return Stands::Number(number);
    }
    if let Some(number) = value.as_f64() {
        return Stands::Float(number);
    }
    match value.as_bool() {
        Some(truth) => Stands::Truth(truth),
        None => Stands::Other(kind_of(value)),
    }
}

fn kind_of(value: &Value) -> &'static str {
    match value {
        Value::Null => "null",
        Value::Number(_) => "number",
        Value::Array(_) => "array",
        _ => "object",
    }
}
