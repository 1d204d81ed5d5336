//! The definitions of models that are shipped.

use crate::devices::{
    assert_same, assert_same_at, assert_true, definition, point_tables as tables,
};
use model_defs::{ModelDef, Point, Sf, shipped};
use std::alloc::Global;
use std::process::Abort;

/// The scale factor of a point: the name of its point, `-` where there is none.
fn factor_of<'a>(model: &'a ModelDef, point: &Point) -> &'a str {
    match point.sf {
        Sf::None => "-",
        Sf::Fixed(_) => "fixed",
        Sf::At(number) => match model.points.as_slice().get(number) {
            Some(other) => other.name.as_str(),
            None => "nothing",
        },
    }
}

/// A point is that of a table's line: name, kind, registers, offset, factor and access.
fn assert_point(rt: &impl Abort, alloc: Global, model: &ModelDef, point: &Point, line: &str) {
    let factor = factor_of(model, point);
    let access = if point.writable { "RW" } else { "R" };
    let name = point.name.as_str();
    let found = format!(in alloc;
        "{name} {:?} {} {} {factor} {access}",
        point.kind, point.size, point.offset
    );
    assert_same(rt, &found.expect(rt, "memory").as_str(), &line);
}

/// The models that are shipped: id, length, points.
static SHIPPED: [(u16, u16, &str); 9] = [
    (1, 66, tables::COMMON),
    (101, 50, tables::INVERTER),
    (102, 50, tables::INVERTER),
    (103, 50, tables::INVERTER),
    (120, 26, tables::NAMEPLATE),
    (121, 30, tables::SETTINGS),
    (122, 44, tables::STATUS),
    (123, 24, tables::CONTROLS),
    (124, 24, tables::STORAGE),
];

/// A model has this id, this length, and the points of a table.
fn assert_model(rt: &impl Abort, alloc: Global, model: &ModelDef, row: &(u16, u16, &str)) {
    let (id, length, table) = *row;
    assert_same(rt, &(model.id, model.length), &(id, length));
    let points = model.points.as_slice();
    assert_same_at(rt, &points.len(), &table.lines().count(), &id);
    for (point, line) in points.iter().zip(table.lines()) {
        assert_point(rt, alloc, model, point, line);
    }
}

#[test]
fn each_shipped_model_is_its_table(rt: HostRuntime) {
    for row in &SHIPPED {
        let model = definition(rt.alloc(), row.0).expect(&rt, "a definition");
        assert_model(&rt, rt.alloc(), &model, row);
    }
}

/// Power is point 14, which clients may not write.
fn assert_has_power(rt: &impl Abort, model: &ModelDef) {
    assert_same(rt, &model.length, &50);
    assert_same(rt, &model.find("W"), &Some(14));
    let power = model.points.as_slice().get(14).expect(rt, "a point");
    assert_same(rt, &power.offset, &14);
    assert_same(rt, &power.sf, &Sf::At(15));
    assert_true(rt, !power.writable);
    assert_same(rt, &model.find("WX"), &None);
    assert_same(rt, &model.find("w"), &None);
}

#[test]
fn a_three_phase_inverter_has_its_power(rt: HostRuntime) {
    let model = definition(rt.alloc(), 103).expect(&rt, "a definition");
    assert_has_power(&rt, &model.clone().expect(&rt, "memory"));
    assert_same(&rt, &shipped(160), &None);
}
