//! Instructions in parentheses.

use crate::tests::seen::{
    Line, Spelled, Want, action_at, has_lines, inner_of, simple_operands, simple_spelling,
};
use crate::tests::{assert_same, assert_true, program_of};
use il_reader::{Action, InnerLine, Program, Simple};
use std::process::Abort;

const NESTED: &str =
    "PROGRAM p\nLD 1\nx: ADD( 2\n\nGT(\nNOT\n(* *)\n)\nANDN( (* *) TRUE\n)\nMIN 3\n)\n&(\nLD a\n)\nST y\nEND_PROGRAM";

static LINES: [Line; 4] = [
    (2, "", ("LD", "")),
    (3, "x", ("ADD", "(")),
    (13, "", ("AND", "(")),
    (16, "", ("ST", "")),
];

/// The instruction of a statement, which works on the result alone.
fn simple_at<'a>(rt: &impl Abort, program: &'a Program, place: usize) -> &'a Simple {
    match action_at(rt, program, place) {
        Action::Compute(computation) => computation.as_simple(),
        _ => panic!(rt; "no computation"),
    }
}

/// The instruction is this one, and what stands right after its parenthesis is this.
fn opens(rt: &impl Abort, simple: &Simple, spelled: Spelled, first: Want) {
    assert_true(rt, simple_spelling(simple) == spelled);
    let (operand, _) = simple_operands(simple);
    assert_true(rt, first.is(&operand));
}

/// These are the numbers and instructions of the lines inside.
fn holds(rt: &impl Abort, inner: &[InnerLine], wanted: &[(u32, Spelled)]) {
    assert_same(rt, &inner.len(), &wanted.len());
    for (line, (number, spelled)) in inner.iter().zip(wanted) {
        assert_same(rt, &line.line, number);
        assert_true(rt, simple_spelling(&line.simple) == *spelled);
    }
}

fn assert_sum(rt: &impl Abort, sum: &Simple) {
    opens(rt, sum, ("ADD", "("), Want::Number(2));
    holds(
        rt,
        inner_of(sum),
        &[(5, ("GT", "(")), (9, ("AND", "N(")), (11, ("MIN", ""))],
    );
}

fn assert_nested(rt: &impl Abort, program: &Program) {
    has_lines(rt, program, &LINES);
    assert_same(rt, &program.end_line, &17);
    assert_sum(rt, simple_at(rt, program, 1));
}

#[test]
fn reads_parentheses(rt: HostRuntime) {
    assert_nested(&rt, &program_of(&rt, rt.alloc(), NESTED));
}

fn assert_compared(rt: &impl Abort, compared: &Simple) {
    opens(rt, compared, ("GT", "("), Want::Nothing);
    holds(rt, inner_of(compared), &[(6, ("NOT", ""))]);
}

fn assert_conjoined(rt: &impl Abort, conjoined: &Simple) {
    opens(rt, conjoined, ("AND", "N("), Want::Truth(true));
    holds(rt, inner_of(conjoined), &[]);
}

fn assert_inner(rt: &impl Abort, inner: &[InnerLine]) {
    let [compared, conjoined, ..] = inner else {
        panic!(rt; "fewer lines")
    };
    assert_compared(rt, &compared.simple);
    assert_conjoined(rt, &conjoined.simple);
}

#[test]
fn reads_inner_parentheses(rt: HostRuntime) {
    let program = program_of(&rt, rt.alloc(), NESTED);
    assert_inner(&rt, inner_of(simple_at(&rt, &program, 1)));
}
