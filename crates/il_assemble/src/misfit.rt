//! The number that isn't a literal of the type that it takes.
ghost use Rattle.std.specs.Prelude.{IfOk, IfSome};
ghost use Rattle.il_assemble.specs.Misfit.{IsMisfit};

use crate::limits::MOST_NAMES;
use crate::places::all_places;
use crate::scope::Scope;
use crate::typing::{
    behind_first, is_literal_of, loaded_inner_type, loaded_type, or_dint, type_after,
    type_after_line, type_beside, type_inside, whole_type,
};
use il_reader::{Action, InnerLine, Operand, Program, Simple, Statement};
use point_types::IlType;
use std::alloc::{AllocError, Global};

/// A number without a type of its own, and the type that it takes where it stands.
#[derive(Clone, Copy, PartialEq, Eq, Debug)]
pub struct Literal {
    pub number: i64,
    pub kind: IlType,
}

/// The first number of a program that isn't a literal of the type that it takes; none where there is none. Tests show that
/// it is the one for which `assemble` refuses, as LiteralType, a program that was read.
pub fn first_misfit(alloc: Global, program: &Program) -> Result<Option<Literal>, AllocError>
    ensures { IfOk result (λ found. IfSome found IsMisfit) }
{
    let variables = program.variables.as_slice();
    let externals = program.externals.as_slice();
    if variables.len() > MOST_NAMES || externals.len() > MOST_NAMES {
        return Ok(None);
    }
    let tables = all_places(alloc, variables, externals, &[])?;
    let scope = Scope {
        variables,
        externals,
        uses: &[],
        statements: &[],
        tables: &tables,
    };
    Ok(misfit_in(scope, program.statements.as_slice()))
}

/// The same of the lines of the body.
fn misfit_in(scope: Scope<'_, '_, '_>, statements: &[Statement]) -> Option<Literal>
    ensures { IfSome result IsMisfit }
{
    let mut running = None;
    let mut rest = statements;
    while let [statement, after @ ..] = rest {
        if let Some(Action::Compute(computation)) = &statement.action {
            let loaded = loaded_type(scope, after);
            let found = of_simple(scope, running, loaded, computation.as_simple());
            if found.is_some() {
                return found;
            }
        }
        running = type_after_line(scope, running, after, &statement.action);
        rest = after;
    }
    None
}

/// The same of an instruction and of the lines inside its parentheses.
#[cycle(of_simple)]
fn of_simple(
    scope: Scope<'_, '_, '_>,
    running: Option<IlType>,
    loaded: IlType,
    simple: &Simple,
) -> Option<Literal>
    ensures { IfSome result IsMisfit }
{
    match simple {
        Simple::Load { operand, .. } => of_operand(loaded, operand),
        Simple::Apply { operand, .. } => of_operand(or_dint(running), operand),
        Simple::Defer { operand, inner, .. } => either(
            of_first(or_dint(running), operand),
            of_inner(
                scope,
                type_inside(scope, running, operand),
                whole_type(running),
                inner.as_slice(),
            ),
        ),
        Simple::Limit { input, most } => either(
            of_operand(or_dint(running), input),
            of_operand(or_dint(running), most),
        ),
        Simple::Select { if_false, if_true } => either(
            of_operand(type_beside(scope, if_true), if_false),
            of_operand(type_beside(scope, if_false), if_true),
        ),
        Simple::Invert | Simple::Absolute | Simple::Convert { .. } => None,
    }
}

/// The same of the lines inside parentheses, where a literal that is loaded first takes the type `otherwise` where no next
/// line gives it one.
#[cycle(of_simple)]
fn of_inner(
    scope: Scope<'_, '_, '_>,
    running: Option<IlType>,
    otherwise: IlType,
    inner: &[InnerLine],
) -> Option<Literal>
    ensures { IfSome result IsMisfit }
{
    let mut before = running;
    let mut unless_next = otherwise;
    let mut rest = inner;
    for line in inner {
        rest = behind_first(rest);
        let loaded = loaded_inner_type(scope, unless_next, rest);
        let found = of_simple(scope, before, loaded, &line.simple);
        if found.is_some() {
            return found;
        }
        before = type_after(scope, before, loaded, &line.simple);
        unless_next = IlType::Dint;
    }
    None
}

/// The first of two.
fn either(one: Option<Literal>, other: Option<Literal>) -> Option<Literal>
    requires one { IfSome one IsMisfit }
    requires other { IfSome other IsMisfit }
    ensures { IfSome result IsMisfit }
{
    match one {
        Some(_) => one,
        None => other,
    }
}

fn of_first(wanted: IlType, first: &Option<Operand>) -> Option<Literal>
    ensures { IfSome result IsMisfit }
{
    match first {
        Some(operand) => of_operand(wanted, operand),
        None => None,
    }
}

fn of_operand(wanted: IlType, operand: &Operand) -> Option<Literal>
    ensures { IfSome result IsMisfit }
{
    match operand {
        Operand::Number(number) if !is_literal_of(wanted, *number) => Some(Literal {
            number: *number,
            kind: wanted,
        }),
        _ => None,
    }
}
