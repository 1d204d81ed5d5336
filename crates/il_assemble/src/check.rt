//! The static faults of a statement.
ghost use Rattle.std.specs.Prelude.{◌≡◌, None};
ghost use Rattle.il_assemble.specs.Kept.{seen};
ghost use Rattle.il_assemble.specs.Names.{known_as};
ghost use Rattle.il_assemble.specs.StaticFault.{at_line, checked_inner, checked_line, checked_lines, checked_simple, first_fault, is_conversion, load_fault, lower, lowest, number_of, operand_fault, store_fault, unless};
ghost use Rattle.il_assemble.specs.Written.{written, written_inner};

use crate::fault::{AsmFault, AsmFaultKind};
use crate::jumps::jump_fault;
use crate::names::{Known, known_as};
use crate::scope::Scope;
use crate::typing::{
    behind_first, is_literal_of, loaded_inner_type, loaded_type, or_dint, type_after,
    type_after_line, type_beside, type_inside, whole_type,
};
use crate::uses::{is_loaded, is_stored};
use il_reader::{Action, InnerLine, Operand, Simple, Statement};
use point_types::{IlType, Name};

/// The number of a kind: of several faults on one line the lowest is given.
fn number_of(kind: AsmFaultKind) -> u8
    ensures { result ≡ number_of kind }
{
    match kind {
        AsmFaultKind::UnknownName => 1,
        AsmFaultKind::UnknownLabel => 2,
        AsmFaultKind::BackwardJump => 3,
        AsmFaultKind::LoadAndStore => 4,
        AsmFaultKind::LiteralType => 5,
        AsmFaultKind::TooLong => 6,
        AsmFaultKind::OutOfMemory => 7,
        AsmFaultKind::ForwardLoop => 8,
    }
}

/// Of two kinds the one with the lower number.
pub(crate) fn lowest(one: Option<AsmFaultKind>, other: Option<AsmFaultKind>) -> Option<AsmFaultKind>
    ensures { result ≡ lowest one other }
{
    match (one, other) {
        (None, other) => other,
        (Some(one), None) => Some(one),
        (Some(one), Some(other)) => {
            if number_of(one) <= number_of(other) {
                Some(one)
            } else {
                Some(other)
            }
        }
    }
}

pub(crate) fn unless(holds: bool, kind: AsmFaultKind) -> Option<AsmFaultKind>
    ensures { result ≡ unless holds kind }
{
    if holds { None } else { Some(kind) }
}

fn load_fault(scope: Scope<'_, '_, '_>, name: &Name) -> Option<AsmFaultKind>
    ensures { result ≡ load_fault (seen scope.entry) (known_as (seen scope.entry) name.now) }
{
    match known_as(scope, name) {
        None => Some(AsmFaultKind::UnknownName),
        Some(Known::Variable(_)) => None,
        Some(Known::External(place)) => {
            unless(is_loaded(scope.uses, place), AsmFaultKind::LoadAndStore)
        }
        Some(Known::Presence(place)) => {
            unless(is_loaded(scope.uses, place), AsmFaultKind::LoadAndStore)
        }
    }
}

fn store_fault(scope: Scope<'_, '_, '_>, name: &Name) -> Option<AsmFaultKind>
    ensures { result ≡ store_fault (seen scope.entry) (known_as (seen scope.entry) name.now) }
{
    match known_as(scope, name) {
        None => Some(AsmFaultKind::UnknownName),
        Some(Known::Variable(_)) => None,
        Some(Known::External(place)) => {
            unless(is_stored(scope.uses, place), AsmFaultKind::LoadAndStore)
        }
        Some(Known::Presence(_)) => Some(AsmFaultKind::UnknownName),
    }
}

fn operand_fault(
    scope: Scope<'_, '_, '_>,
    wanted: IlType,
    operand: &Operand,
) -> Option<AsmFaultKind>
    ensures { result ≡ operand_fault (seen scope.entry) wanted operand.now }
{
    match operand {
        Operand::Named(name) => load_fault(scope, name),
        Operand::Truth(_) => None,
        Operand::Number(number) => {
            unless(is_literal_of(wanted, *number), AsmFaultKind::LiteralType)
        }
        Operand::Typed(kind, number) => {
            unless(is_literal_of(*kind, *number), AsmFaultKind::LiteralType)
        }
    }
}

fn first_fault(
    scope: Scope<'_, '_, '_>,
    wanted: IlType,
    first: &Option<Operand>,
) -> Option<AsmFaultKind>
    ensures { result ≡ first_fault (seen scope.entry) wanted first.now }
{
    match first {
        Some(operand) => operand_fault(scope, wanted, operand),
        None => None,
    }
}

/// Whether there is a conversion between two types: two different whole-number types.
fn is_conversion(from: IlType, to: IlType) -> bool
    ensures { result ≡ is_conversion from to }
{
    from != IlType::Bool && to != IlType::Bool && from != to
}

fn at_line(line: u32, kind: Option<AsmFaultKind>) -> Result<(), AsmFault>
    ensures { result ≡ at_line line kind }
{
    match kind {
        Some(kind) => Err(AsmFault { line, kind }),
        None => Ok(()),
    }
}

/// The first fault of an instruction on a line and of the lines inside its parentheses.
#[cycle(check_simple)]
fn check_simple(
    scope: Scope<'_, '_, '_>,
    line: u32,
    running: Option<IlType>,
    loaded: IlType,
    simple: &Simple,
) -> Result<(), AsmFault>
    ensures { result ≡ checked_simple (seen scope.entry) line running loaded (written simple.now) }
{
    match simple {
        Simple::Load { operand, .. } => at_line(line, operand_fault(scope, loaded, operand)),
        Simple::Apply { operand, .. } => {
            at_line(line, operand_fault(scope, or_dint(running), operand))
        }
        Simple::Defer { operand, inner, .. } => {
            at_line(line, first_fault(scope, or_dint(running), operand))?;
            check_inner(
                scope,
                type_inside(scope, running, operand),
                whole_type(running),
                inner.as_slice(),
            )
        }
        Simple::Limit { input, most } => at_line(
            line,
            lowest(
                operand_fault(scope, or_dint(running), input),
                operand_fault(scope, or_dint(running), most),
            ),
        ),
        Simple::Select { if_false, if_true } => at_line(
            line,
            lowest(
                operand_fault(scope, type_beside(scope, if_true), if_false),
                operand_fault(scope, type_beside(scope, if_false), if_true),
            ),
        ),
        Simple::Invert | Simple::Absolute => Ok(()),
        Simple::Convert { from, to } => at_line(
            line,
            unless(is_conversion(*from, *to), AsmFaultKind::UnknownName),
        ),
    }
}

/// The first fault of the lines inside parentheses.
#[cycle(check_simple)]
fn check_inner(
    scope: Scope<'_, '_, '_>,
    running: Option<IlType>,
    otherwise: IlType,
    inner: &[InnerLine],
) -> Result<(), AsmFault>
    ensures { result ≡ checked_inner (seen scope.entry) running otherwise (written_inner inner.now) }
{
    let mut before = running;
    let mut unless_next = otherwise;
    let mut rest = inner;
    for line in inner {
        rest = behind_first(rest);
        let loaded = loaded_inner_type(scope, unless_next, rest);
        check_simple(scope, line.line, before, loaded, &line.simple)?;
        before = type_after(scope, before, loaded, &line.simple);
        unless_next = IlType::Dint;
    }
    Ok(())
}

/// The first fault of a line of the body, where so many lines stand before it.
fn check_line(
    scope: Scope<'_, '_, '_>,
    place: usize,
    running: Option<IlType>,
    rest: &[Statement],
    line: u32,
    action: &Option<Action>,
) -> Result<(), AsmFault>
    ensures { result ≡ checked_line (seen scope.entry) place running rest.now line action.now }
{
    match action {
        None | Some(Action::Return(_)) => Ok(()),
        Some(Action::Compute(computation)) => {
            let simple = computation.as_simple();
            check_simple(scope, line, running, loaded_type(scope, rest), simple)
        }
        Some(Action::Store { name, .. }) => at_line(line, store_fault(scope, name)),
        Some(Action::Set { name, .. }) => at_line(line, store_fault(scope, name)),
        Some(Action::Jump { label, turns, .. }) => {
            at_line(line, jump_fault(scope, place, *turns, label))
        }
    }
}

/// The first static fault of a program, but for its length.
pub(crate) fn check_lines(
    scope: Scope<'_, '_, '_>,
    statements: &[Statement],
) -> Result<(), AsmFault>
    ensures { result ≡ checked_lines (seen scope.entry) 0 None statements.now }
{
    let mut running = None;
    let mut rest = statements;
    let mut place = 0;
    while let [statement, after @ ..] = rest {
        check_line(
            scope,
            place,
            running,
            after,
            statement.line,
            &statement.action,
        )?;
        running = type_after_line(scope, running, after, &statement.action);
        place += 1;
        rest = after;
    }
    Ok(())
}
