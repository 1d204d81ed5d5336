//! Trees that no text has: more parentheses or names than a reader lets pass, a name that comes twice, and a BOOL with
//! a subrange.

use crate::tests::assembly::outcome_of;
use crate::tests::{assert_same, program_of};
use il_assemble::AsmFaultKind;
use il_reader::{
    Action, Computation, External, InnerLine, Operand, Program, Simple, Statement, Variable,
};
use point_types::{IlType, Items, Operator, Var};
use std::alloc::Global;
use std::process::Abort;

/// ADD( 1, and the lines inside.
fn deferred(inner: Vec<InnerLine>) -> Simple {
    Simple::Defer {
        operator: Operator::Add,
        negated: false,
        operand: Some(Operand::Number(1)),
        inner,
    }
}

/// So many times ADD( 1 in one another.
fn deferred_often(rt: &impl Abort, alloc: Global, depth: u32) -> Simple {
    let mut inner = Vec::new(alloc);
    for line in 1..depth {
        let simple = deferred(inner);
        inner = Vec::new(alloc);
        inner.push(InnerLine { line, simple }).expect(rt, "memory");
    }
    deferred(inner)
}

/// LD 1, so many times ADD( 1 in one another in line 2, ST y.
fn nested(rt: &impl Abort, alloc: Global, depth: u32) -> Program {
    let text = "PROGRAM p VAR y : DINT; END_VAR LD 1\nEND_PROGRAM";
    let mut program = program_of(rt, alloc, text);
    let computation = Computation::new(deferred_often(rt, alloc, depth));
    add(rt, &mut program.statements, Action::Compute(computation));
    let name = first_variable(rt, &program).var.name;
    add(
        rt,
        &mut program.statements,
        Action::Store {
            negated: false,
            name,
        },
    );
    program
}

fn add(rt: &impl Abort, statements: &mut Items<Statement>, action: Action) {
    let statement = Statement {
        line: 2,
        label: None,
        action: Some(action),
    };
    statements.push(statement).expect(rt, "memory");
}

#[test]
fn parentheses_in_one_another(rt: HostRuntime) {
    for (depth, wanted) in [(100, Ok(1214)), (101, Err((2, AsmFaultKind::TooLong)))] {
        let tree = nested(&rt, rt.alloc(), depth);
        assert_same(&rt, &outcome_of(rt.alloc(), &tree), &wanted);
    }
}

fn first_variable(rt: &impl Abort, program: &Program) -> Variable {
    *program
        .variables
        .as_slice()
        .first()
        .expect(rt, "a variable")
}

fn first_external(rt: &impl Abort, program: &Program) -> External {
    *program
        .externals
        .as_slice()
        .first()
        .expect(rt, "an external")
}

/// The same variable in another line.
fn in_line(variable: &Variable, line: u32) -> Variable {
    Variable {
        line,
        var: variable.var,
    }
}

/// The one variable of a program, once more in each of the lines from 2 to the last.
fn with_variables(rt: &impl Abort, alloc: Global, last: u32) -> Program {
    let mut program = program_of(rt, alloc, "PROGRAM p VAR a : DINT; END_VAR END_PROGRAM");
    let first = first_variable(rt, &program);
    for line in 2..=last {
        let variable = in_line(&first, line);
        program.variables.push(variable).expect(rt, "memory");
    }
    program
}

/// The one external of a program, once more in each of the lines from 2 to the last.
fn with_externals(rt: &impl Abort, alloc: Global, last: u32) -> Program {
    let text = "PROGRAM p VAR_EXTERNAL w : INT; END_VAR END_PROGRAM";
    let mut program = program_of(rt, alloc, text);
    let External { name, kind, .. } = first_external(rt, &program);
    for line in 2..=last {
        let external = External { line, name, kind };
        program.externals.push(external).expect(rt, "memory");
    }
    program
}

#[test]
fn names_too_many(rt: HostRuntime) {
    let wide = with_variables(&rt, rt.alloc(), 1025);
    let wanted = Err((1025, AsmFaultKind::TooLong));
    assert_same(&rt, &outcome_of(rt.alloc(), &wide), &wanted);
    let tagged = with_externals(&rt, rt.alloc(), 1025);
    assert_same(&rt, &outcome_of(rt.alloc(), &tagged), &wanted);
}

#[test]
fn a_name_that_comes_twice(rt: HostRuntime) {
    let twice = with_variables(&rt, rt.alloc(), 2);
    let wanted = Err((1, AsmFaultKind::TooLong));
    assert_same(&rt, &outcome_of(rt.alloc(), &twice), &wanted);
}

/// A program with one variable more, in line 7: a BOOL that is always FALSE.
fn with_constant(rt: &impl Abort, alloc: Global) -> Program {
    let text = "PROGRAM p VAR a : BOOL; END_VAR LD q\nEND_PROGRAM";
    let mut program = program_of(rt, alloc, text);
    let var = Var {
        name: first_variable(rt, &program).var.name,
        kind: IlType::Bool,
        low: 0,
        high: 0,
        start: 0,
    };
    let variable = Variable { line: 7, var };
    program.variables.push(variable).expect(rt, "memory");
    program
}

#[test]
fn a_bool_with_a_subrange(rt: HostRuntime) {
    let tree = with_constant(&rt, rt.alloc());
    let wanted = Err((7, AsmFaultKind::LiteralType));
    assert_same(&rt, &outcome_of(rt.alloc(), &tree), &wanted);
}
