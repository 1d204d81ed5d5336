//! The raw numbers that a site file may give a point are those that its kind encodes.

use crate::tests::{assert_same, assert_same_at, definitions};
use model_defs::{ModelDef, read};
use point_types::Kind;
use point_writer::plan::words_for;
use site_model::{Site, SiteFault};
use std::alloc::Global;
use std::process::Abort;

/// A model with a point of each kind, after ID and L.
const KINDS: &str = r#"{"id": 64001, "group": {"points": [
    {"name": "ID", "type": "uint16", "size": 1}, {"name": "L", "type": "uint16", "size": 1},
    {"name": "Int16", "type": "int16", "size": 1}, {"name": "Sunssf", "type": "sunssf", "size": 1},
    {"name": "Uint16", "type": "uint16", "size": 1}, {"name": "Enum16", "type": "enum16", "size": 1},
    {"name": "Acc16", "type": "acc16", "size": 1}, {"name": "Bitfield16", "type": "bitfield16", "size": 1},
    {"name": "Int32", "type": "int32", "size": 2}, {"name": "Uint32", "type": "uint32", "size": 2},
    {"name": "Enum32", "type": "enum32", "size": 2}, {"name": "Acc32", "type": "acc32", "size": 2},
    {"name": "Bitfield32", "type": "bitfield32", "size": 2}, {"name": "Int64", "type": "int64", "size": 4},
    {"name": "Uint64", "type": "uint64", "size": 4}, {"name": "Acc64", "type": "acc64", "size": 4}]}}"#;

/// A kind, and the least and the greatest raw number that it encodes, of those of 64 bits with a sign.
static ENDS: [(Kind, i64, i64); 14] = [
    (Kind::Int16, -32767, 32767),
    (Kind::Sunssf, -32767, 32767),
    (Kind::Uint16, 0, 65534),
    (Kind::Enum16, 0, 65534),
    (Kind::Acc16, 1, 65535),
    (Kind::Bitfield16, 0, 32767),
    (Kind::Int32, -2147483647, 2147483647),
    (Kind::Uint32, 0, 4294967294),
    (Kind::Enum32, 0, 4294967294),
    (Kind::Acc32, 1, 4294967295),
    (Kind::Bitfield32, 0, 2147483647),
    (Kind::Int64, -9223372036854775807, 9223372036854775807),
    (Kind::Uint64, 0, 9223372036854775807),
    (Kind::Acc64, 1, 9223372036854775807),
];

/// What a site file answers that gives the point of a kind this raw number.
fn answer(
    rt: &impl Abort,
    alloc: Global,
    defs: &[ModelDef],
    kind: Kind,
    raw: i64,
) -> Option<SiteFault> {
    let text = format!(in alloc;
        "[gateway]\nunit = 1\nmodels = [1, 64001]\n[[served]]\nmodel = 64001\npoint = \"{kind:?}\"\nvalue = {raw}\n"
    );
    Site::read(alloc, text.expect(rt, "memory").as_str(), defs).err()
}

/// Whether words of a numeric kind stand for the number.
fn encodes(kind: Kind, raw: i64) -> bool {
    kind != Kind::String && words_for(kind, raw, 0, Some(0)).is_ok()
}

fn assert_raw(
    rt: &impl Abort,
    alloc: Global,
    defs: &[ModelDef],
    kind: Kind,
    raw: i64,
    inside: bool,
) {
    assert_same_at(rt, &encodes(kind, raw), &inside, &raw);
    let wanted = if inside {
        None
    } else {
        Some(SiteFault::BadRange)
    };
    let found = answer(rt, alloc, defs, kind, raw);
    assert_same(rt, &(kind, raw, found), &(kind, raw, wanted));
}

#[test]
fn raw_numbers_are_those_that_a_kind_encodes(rt: HostRuntime) {
    let mut defs = definitions(&rt, rt.alloc());
    let kinds = read(rt.alloc(), KINDS.as_bytes()).expect(&rt, "a definition");
    defs.push(kinds).expect(&rt, "memory");
    for row in &ENDS {
        let (kind, low, high) = *row;
        for raw in [low.saturating_sub(1), low, high, high.saturating_add(1)] {
            let inside = low <= raw && raw <= high;
            assert_raw(&rt, rt.alloc(), &defs, kind, raw, inside);
        }
    }
}
