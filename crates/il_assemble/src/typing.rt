//! The type that the result has along a program.
ghost use Rattle.std.specs.Prelude.{◌≡◌, drop};
ghost use Rattle.std.specs.Option.{option_copied};
ghost use Rattle.il_assemble.specs.Kept.{seen};
ghost use Rattle.il_assemble.specs.Typing.{first_operand, is_comparison, is_literal_of, loaded_inner_type, loaded_type, next_inner_type, next_type, operand_type, or_dint, own_type, type_after, type_after_line, type_after_operator, type_beside, type_inside, type_of_action, type_of_next, unless_always, whole_type};
ghost use Rattle.il_assemble.specs.Written.{written, written_inner};

use crate::names::named_type;
use crate::scope::Scope;
use il_reader::{Action, InnerLine, Operand, Simple, Statement};
use point_types::{Condition, IlType, Operator};

/// Whether a number is a literal of a type; none is one of BOOL.
pub(crate) fn is_literal_of(kind: IlType, number: i64) -> bool
    ensures { result ≡ is_literal_of kind number }
{
    kind != IlType::Bool && kind.low() <= number && number <= kind.high()
}

/// The type of a known name or a typed literal.
fn own_type(scope: Scope<'_, '_, '_>, operand: &Operand) -> Option<IlType>
    ensures { result ≡ own_type (seen scope.entry) operand.now }
{
    match operand {
        Operand::Named(name) => named_type(scope, name),
        Operand::Truth(_) | Operand::Number(_) => None,
        Operand::Typed(kind, _) => Some(*kind),
    }
}

/// The type of an operand, where an untyped number takes the type `wanted`.
fn operand_type(scope: Scope<'_, '_, '_>, wanted: IlType, operand: &Operand) -> IlType
    ensures { result ≡ operand_type (seen scope.entry) wanted operand.now }
{
    match operand {
        Operand::Named(name) => named_type(scope, name).unwrap_or(wanted),
        Operand::Truth(_) => IlType::Bool,
        Operand::Number(_) => wanted,
        Operand::Typed(kind, _) => *kind,
    }
}

/// A type, or DINT where there is none.
pub(crate) fn or_dint(kind: Option<IlType>) -> IlType
    ensures { result ≡ or_dint kind }
{
    kind.unwrap_or(IlType::Dint)
}

/// The type that a literal of SEL takes from the other operand.
pub(crate) fn type_beside(scope: Scope<'_, '_, '_>, other: &Operand) -> IlType
    ensures { result ≡ type_beside (seen scope.entry) other.now }
{
    or_dint(own_type(scope, other))
}

/// The type of a literal that is loaded first inside parentheses, by that of the deferred result.
pub(crate) fn whole_type(running: Option<IlType>) -> IlType
    ensures { result ≡ whole_type running }
{
    match running {
        None | Some(IlType::Bool) => IlType::Dint,
        Some(kind) => kind,
    }
}

/// What an instruction's first operand gives to a literal that is loaded before it.
fn type_of_next(scope: Scope<'_, '_, '_>, simple: &Simple) -> Option<IlType>
    ensures { result ≡ type_of_next (seen scope.entry) (written simple.now) }
{
    match simple {
        Simple::Load { operand, .. } | Simple::Apply { operand, .. } => own_type(scope, operand),
        Simple::Defer { operand, .. } => match operand {
            Some(operand) => own_type(scope, operand),
            None => None,
        },
        Simple::Limit { input, .. } => own_type(scope, input),
        Simple::Select { if_false, .. } => own_type(scope, if_false),
        Simple::Invert | Simple::Absolute | Simple::Convert { .. } => None,
    }
}

/// The same of a line of the body.
fn type_of_action(scope: Scope<'_, '_, '_>, action: &Action) -> Option<IlType>
    ensures { result ≡ type_of_action (seen scope.entry) action.now }
{
    match action {
        Action::Compute(computation) => type_of_next(scope, computation.as_simple()),
        Action::Store { name, .. } | Action::Set { name, .. } => named_type(scope, name),
        Action::Jump { .. } | Action::Return(_) => None,
    }
}

/// What the next instruction gives to a literal that is loaded before it; a label alone on its line is passed by.
fn next_type(scope: Scope<'_, '_, '_>, statements: &[Statement]) -> Option<IlType>
    ensures { result ≡ next_type (seen scope.entry) statements.now }
{
    let mut rest = statements;
    while let [statement, after @ ..] = rest {
        if let Some(action) = &statement.action {
            return type_of_action(scope, action);
        }
        rest = after;
    }
    None
}

/// The type of a literal that is loaded before the lines `rest`.
pub(crate) fn loaded_type(scope: Scope<'_, '_, '_>, rest: &[Statement]) -> IlType
    ensures { result ≡ loaded_type (seen scope.entry) rest.now }
{
    or_dint(next_type(scope, rest))
}

/// The same inside parentheses, where it takes the type `otherwise` where no next instruction gives one.
pub(crate) fn loaded_inner_type(
    scope: Scope<'_, '_, '_>,
    otherwise: IlType,
    rest: &[InnerLine],
) -> IlType
    ensures { result ≡ loaded_inner_type (seen scope.entry) otherwise (written_inner rest.now) }
{
    match rest {
        [next, ..] => type_of_next(scope, &next.simple).unwrap_or(otherwise),
        [] => otherwise,
    }
}

/// The lines after the first one.
pub(crate) fn behind_first(lines: &[InnerLine]) -> &[InnerLine]
    ensures { result.now ≡ drop 1 lines.now }
{
    match lines {
        [_, after @ ..] => after,
        [] => lines,
    }
}

fn is_comparison(operator: Operator) -> bool
    ensures { result ≡ is_comparison operator }
{
    matches!(
        operator,
        Operator::Gt | Operator::Ge | Operator::Eq | Operator::Ne | Operator::Le | Operator::Lt
    )
}

fn type_after_operator(running: Option<IlType>, operator: Operator) -> Option<IlType>
    ensures { result ≡ type_after_operator running operator }
{
    if is_comparison(operator) {
        Some(IlType::Bool)
    } else {
        running
    }
}

/// The type of the result after an instruction, as far as the text shows it, by that before it and the type
/// of a literal that it loads.
pub(crate) fn type_after(
    scope: Scope<'_, '_, '_>,
    running: Option<IlType>,
    loaded: IlType,
    simple: &Simple,
) -> Option<IlType>
    ensures { result ≡ type_after (seen scope.entry) running loaded (written simple.now) }
{
    match simple {
        Simple::Load { operand, .. } => Some(operand_type(scope, loaded, operand)),
        Simple::Apply { operator, .. } | Simple::Defer { operator, .. } => {
            type_after_operator(running, *operator)
        }
        Simple::Select { if_false, if_true } => {
            Some(operand_type(scope, type_beside(scope, if_true), if_false))
        }
        Simple::Limit { .. } | Simple::Invert | Simple::Absolute => running,
        Simple::Convert { to, .. } => Some(*to),
    }
}

/// The type of the result after an opening parenthesis.
pub(crate) fn type_inside(
    scope: Scope<'_, '_, '_>,
    running: Option<IlType>,
    first: &Option<Operand>,
) -> Option<IlType>
    ensures { result ≡ type_inside (seen scope.entry) running first.now }
{
    match first {
        Some(operand) => Some(operand_type(scope, or_dint(running), operand)),
        None => None,
    }
}

fn unless_always(condition: Condition, running: Option<IlType>) -> Option<IlType>
    ensures { result ≡ unless_always condition running }
{
    match condition {
        Condition::Always => None,
        Condition::IfTrue | Condition::IfFalse => running,
    }
}

/// The type of the result after a line of the body, where the lines `rest` stand after it.
pub(crate) fn type_after_line(
    scope: Scope<'_, '_, '_>,
    running: Option<IlType>,
    rest: &[Statement],
    action: &Option<Action>,
) -> Option<IlType>
    ensures { result ≡ type_after_line (seen scope.entry) running rest.now action.now }
{
    match action {
        Some(Action::Compute(computation)) => {
            let simple = computation.as_simple();
            type_after(scope, running, loaded_type(scope, rest), simple)
        }
        Some(
            Action::Jump {
                condition,
                turns: None,
                ..
            },
        ) => unless_always(*condition, running),
        Some(Action::Return(condition)) => unless_always(*condition, running),
        None | Some(_) => running,
    }
}
