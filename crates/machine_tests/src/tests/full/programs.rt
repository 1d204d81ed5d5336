//! Programs of three lines, after each of some starts and before its end: both kinds of facts say the same of them.

use crate::tests::assert_same;
use crate::tests::full::first_difference;
use crate::worked::images::variables;
use crate::worked::programs::DeclaredVariable;
use facts::TagRange;
use facts::instructions::Instructions;
use point_types::{Condition, IlType, Items, Operator};
use scan_code::Op;
use std::alloc::Global;
use std::process::Abort;
use verifier::context::Context;

const X: u16 = 0;

const B: u16 = 1;

const Y: u16 = 2;

static VARIABLES: [DeclaredVariable; 3] = [
    ("x", IlType::Int, -2, 10),
    ("b", IlType::Bool, 0, 1),
    ("y", IlType::Int, -32_768, 32_767),
];

/// An input that may be missing.
const POWER: u16 = 0;

/// An input with a default.
const FLAG: u16 = 1;

/// An output.
const LIMIT: u16 = 2;

/// Where the second line of the three begins, and the third, and where END stands.
const SECOND: u16 = 200;

const THIRD: u16 = 300;

const LAST: u16 = 500;

/// An instruction of a line, with the line's number.
type Row = (usize, Op);

/// How many lines there are of which three are taken.
const LINES: usize = 25;

static MIDDLES: [Row; 39] = [
    (0, Op::LoadVariable(X)),
    (1, Op::LoadVariable(B)),
    (2, Op::LoadInput(POWER)),
    (3, Op::LoadPresence(POWER)),
    (4, Op::LoadInput(FLAG)),
    (5, Op::LoadNumber(IlType::Int, 3)),
    (6, Op::Push),
    (6, Op::LoadNumber(IlType::Int, 0)),
    (6, Op::Apply(Operator::Gt)),
    (7, Op::Push),
    (7, Op::LoadVariable(X)),
    (7, Op::Apply(Operator::Ne)),
    (8, Op::Push),
    (8, Op::LoadInput(POWER)),
    (8, Op::Apply(Operator::Le)),
    (9, Op::Push),
    (9, Op::LoadPresence(POWER)),
    (9, Op::Apply(Operator::And)),
    (10, Op::Push),
    (10, Op::LoadVariable(B)),
    (10, Op::Apply(Operator::Or)),
    (11, Op::Not),
    (12, Op::StoreVariable(X)),
    (13, Op::StoreVariable(B)),
    (14, Op::SetVariable(B)),
    (15, Op::Push),
    (15, Op::LoadNumber(IlType::Int, 1)),
    (15, Op::Apply(Operator::Add)),
    (16, Op::Push),
    (16, Op::LoadVariable(X)),
    (16, Op::Apply(Operator::Mod)),
    (17, Op::Push),
    (18, Op::Apply(Operator::And)),
    (19, Op::Jump(Condition::IfTrue, THIRD)),
    (20, Op::Jump(Condition::IfFalse, LAST)),
    (21, Op::Return(Condition::IfTrue)),
    (22, Op::Repeat(Condition::IfTrue, 0, 2, SECOND)),
    (23, Op::StoreOutput(LIMIT)),
    (24, Op::Jump(Condition::Always, THIRD)),
];

/// Of the programs that three of these lines make each 41st is taken: nearly any two lines stand beside each other, with some
/// third one.
const STRIDE: usize = 41;

const TURNS: usize = 381;

/// How many starts there are, each with an end.
const FRAMES: usize = 6;

static STARTS: [Row; 17] = [
    (1, Op::LoadVariable(X)),
    (1, Op::Push),
    (1, Op::LoadNumber(IlType::Int, 0)),
    (1, Op::Apply(Operator::Ne)),
    (2, Op::LoadPresence(POWER)),
    (3, Op::LoadVariable(B)),
    (3, Op::Jump(Condition::IfTrue, THIRD)),
    (3, Op::LoadNumber(IlType::Int, 3)),
    (4, Op::LoadInput(FLAG)),
    (4, Op::Push),
    (4, Op::LoadVariable(X)),
    (5, Op::LoadVariable(X)),
    (5, Op::Push),
    (5, Op::LoadNumber(IlType::Int, 0)),
    (5, Op::Apply(Operator::Ne)),
    (5, Op::Push),
    (5, Op::LoadVariable(B)),
];

static ENDS: [Row; 24] = [
    (1, Op::Jump(Condition::IfFalse, LAST)),
    (1, Op::LoadNumber(IlType::Int, 100)),
    (1, Op::Push),
    (1, Op::LoadVariable(X)),
    (1, Op::Apply(Operator::Div)),
    (1, Op::StoreVariable(Y)),
    (2, Op::Return(Condition::IfFalse)),
    (2, Op::LoadInput(POWER)),
    (2, Op::Absolute),
    (2, Op::StoreVariable(X)),
    (3, Op::StoreVariable(Y)),
    (3, Op::Convert(IlType::Int, IlType::Sint)),
    (3, Op::LoadVariable(Y)),
    (3, Op::StoreOutput(LIMIT)),
    (4, Op::Push),
    (4, Op::LoadNumber(IlType::Int, 5)),
    (4, Op::Select),
    (4, Op::StoreVariable(X)),
    (5, Op::Apply(Operator::And)),
    (5, Op::Return(Condition::IfFalse)),
    (5, Op::LoadNumber(IlType::Int, 100)),
    (5, Op::Push),
    (5, Op::LoadVariable(X)),
    (5, Op::Apply(Operator::Div)),
];

#[test]
fn both_kinds_of_facts_agree_on_short_programs(rt: HostRuntime) {
    for frame in 0..FRAMES {
        assert_programs(&rt, rt.alloc(), frame);
    }
}

fn assert_programs(rt: &impl Abort, alloc: Global, frame: usize) {
    let mut context = empty(rt, alloc);
    for turn in 0..TURNS {
        let number = turn * STRIDE;
        let entries = listing(rt, alloc, frame, number);
        context.listing = Instructions::of(alloc, entries).expect(rt, "memory");
        let difference = first_difference(rt, alloc, &context);
        assert_same(rt, &(frame, number, difference), &(frame, number, None));
    }
}

/// A context without instructions, where two values may be deferred.
fn empty(rt: &impl Abort, alloc: Global) -> Context {
    Context {
        variables: variables(alloc, &VARIABLES, &[]).expect(rt, "variables"),
        tags: tags(rt, alloc),
        depth: 2,
        listing: Instructions::of(alloc, Items::new(alloc)).expect(rt, "memory"),
    }
}

fn tags(rt: &impl Abort, alloc: Global) -> Items<TagRange> {
    let mut tags = Items::new(alloc);
    let power = TagRange {
        output: false,
        kind: IlType::Int,
        low: -5,
        high: 5,
        has_default: false,
    };
    tags.push(power).expect(rt, "memory");
    let flag = TagRange {
        output: false,
        kind: IlType::Bool,
        low: 0,
        high: 1,
        has_default: true,
    };
    tags.push(flag).expect(rt, "memory");
    let limit = TagRange {
        output: true,
        kind: IlType::Int,
        low: 0,
        high: 10,
        has_default: false,
    };
    tags.push(limit).expect(rt, "memory");
    tags
}

/// A program by its number: its start, three lines, its end and END.
fn listing(rt: &impl Abort, alloc: Global, frame: usize, number: usize) -> Items<(usize, Op)> {
    let mut listing = Items::new(alloc);
    add_line(rt, &mut listing, &STARTS, frame, 0);
    add_line(rt, &mut listing, &MIDDLES, number % LINES, 100);
    add_line(
        rt,
        &mut listing,
        &MIDDLES,
        number / LINES % LINES,
        usize::from(SECOND),
    );
    add_line(
        rt,
        &mut listing,
        &MIDDLES,
        number / LINES / LINES,
        usize::from(THIRD),
    );
    add_line(rt, &mut listing, &ENDS, frame, 400);
    listing
        .push((usize::from(LAST), Op::End))
        .expect(rt, "memory");
    listing
}

/// The instructions of a line, from an address on.
fn add_line(
    rt: &impl Abort,
    listing: &mut Items<(usize, Op)>,
    rows: &[Row],
    line: usize,
    begin: usize,
) {
    let mut address = begin;
    for (number, op) in rows {
        if *number == line {
            listing.push((address, *op)).expect(rt, "memory");
            address = address.saturating_add(1);
        }
    }
}
