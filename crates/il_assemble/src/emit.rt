//! The code of a statement.
ghost use Rattle.std.specs.Prelude.{◌≡◌, ◌++◌, ◌+◌, ◌≤◌, ℕ, Some, None, OnOk, length, option_map};
ghost use Rattle.scan_code.specs.Spelling.{spelled, spelled_all};
ghost use Rattle.il_assemble.specs.Code.{action_code, constant_of, inner_code, lines_code, load_of, not_code, return_of, set_of, simple_code, start_code, store_code, store_of};
ghost use Rattle.il_assemble.specs.Elaboration.{first_source, limits_of, place_known, resolved_action, resolved_inner, resolved_lines, resolved_simple, source_known, source_of, turns_of};
ghost use Rattle.il_assemble.specs.Meaning.{Apply, Limit, Select};
ghost use Rattle.il_assemble.specs.Kept.{address_in, meant_place, meant_source, seen};
ghost use Rattle.il_assemble.specs.Limit.{most_counted};
ghost use Rattle.il_assemble.specs.Names.{known_as};
ghost use Rattle.il_assemble.specs.Written.{written, written_inner};

use crate::jumps::target;
use crate::names::{Known, known_as};
use crate::scope::Scope;
use crate::source::{Place, Source};
use crate::typing::{
    behind_first, loaded_inner_type, loaded_type, or_dint, type_after, type_after_line,
    type_beside, type_inside, whole_type,
};
use crate::uses::tag_place;
use il_reader::{Action, InnerLine, Operand, Simple, Statement};
use point_types::{Condition, IlType, Name, Operator};
use scan_code::Op;
use std::alloc::AllocError;

/// Where a known name's value comes from.
fn source_of_name(scope: Scope<'_, '_, '_>, name: &Name) -> Source
    ensures { meant_source result ≡ source_known (seen scope.entry) (known_as (seen scope.entry) name.now) }
{
    match known_as(scope, name) {
        None => Source::Variable(0),
        Some(Known::Variable(place)) => Source::Variable(place as u16),
        Some(Known::External(place)) => Source::Input(tag_place(scope.uses, place) as u16),
        Some(Known::Presence(place)) => Source::Presence(tag_place(scope.uses, place) as u16),
    }
}

/// An operand with its name resolved, or an untyped number typed as `wanted`.
fn source_of(scope: Scope<'_, '_, '_>, wanted: IlType, operand: &Operand) -> Source
    ensures { meant_source result ≡ source_of (seen scope.entry) wanted operand.now }
{
    match operand {
        Operand::Named(name) => source_of_name(scope, name),
        Operand::Truth(value) => Source::Constant(IlType::Bool, i64::from(*value)),
        Operand::Number(number) => Source::Constant(wanted, *number),
        Operand::Typed(kind, number) => Source::Constant(*kind, *number),
    }
}

/// Where a value is stored.
fn place_of(scope: Scope<'_, '_, '_>, name: &Name) -> Place
    ensures { meant_place result ≡ place_known (seen scope.entry) (known_as (seen scope.entry) name.now) }
{
    match known_as(scope, name) {
        None | Some(Known::Presence(_)) => Place::Variable(0),
        Some(Known::Variable(place)) => Place::Variable(place as u16),
        Some(Known::External(place)) => Place::Output(tag_place(scope.uses, place) as u16),
    }
}

/// The load of a literal.
fn constant(kind: IlType, number: i64) -> Op
    ensures { result ≡ constant_of kind number }
{
    match kind {
        IlType::Bool => Op::LoadBool(number == 1),
        kind => Op::LoadNumber(kind, number),
    }
}

/// The load of an operand.
fn load(source: Source) -> Op
    ensures { result ≡ load_of (meant_source source) }
{
    match source {
        Source::Variable(place) => Op::LoadVariable(place),
        Source::Input(place) => Op::LoadInput(place),
        Source::Presence(place) => Op::LoadPresence(place),
        Source::Constant(kind, number) => constant(kind, number),
    }
}

fn store(place: Place) -> Op
    ensures { result ≡ store_of (meant_place place) }
{
    match place {
        Place::Variable(place) => Op::StoreVariable(place),
        Place::Output(place) => Op::StoreOutput(place),
    }
}

/// S where the value is TRUE, R where it is FALSE.
fn set(value: bool, place: Place) -> Op
    ensures { result ≡ set_of value (meant_place place) }
{
    match (value, place) {
        (true, Place::Variable(place)) => Op::SetVariable(place),
        (true, Place::Output(place)) => Op::SetOutput(place),
        (false, Place::Variable(place)) => Op::ResetVariable(place),
        (false, Place::Output(place)) => Op::ResetOutput(place),
    }
}

/// A return; one that always acts is an end.
fn return_op(condition: Condition) -> Op
    ensures { result ≡ return_of condition }
{
    match condition {
        Condition::Always => Op::End,
        condition => Op::Return(condition),
    }
}

/// Where a line begins; 0 where that isn't known yet.
fn address_in(addresses: &[u16], place: usize) -> u16
    ensures { result ≡ address_in addresses.now place }
{
    match addresses.get(place) {
        Some(address) => *address,
        None => 0,
    }
}

/// The N after an operator.
pub(crate) fn emit_not(code: &mut Vec<u8>, negated: bool) -> Result<(), AllocError>
    ensures { OnOk result (code.new.items ≡ code.old.items ++ spelled_all (not_code negated)) }
{
    if negated {
        Op::Not.write(code)?;
    }
    Ok(())
}

/// The load of an operand right after a parenthesis, where there is one.
pub(crate) fn emit_first(
    code: &mut Vec<u8>,
    scope: Scope<'_, '_, '_>,
    wanted: IlType,
    first: &Option<Operand>,
) -> Result<(), AllocError>
    ensures { OnOk result (code.new.items ≡ code.old.items
        ++ spelled_all (start_code (first_source (seen scope.entry) wanted first.now))) }
{
    if let Some(operand) = first {
        load(source_of(scope, wanted, operand)).write(code)?;
    }
    Ok(())
}

/// An operator with its operand, which N negates.
fn emit_apply(
    code: &mut Vec<u8>,
    operator: Operator,
    negated: bool,
    source: Source,
) -> Result<(), AllocError>
    ensures { OnOk result (code.new.items ≡ code.old.items
        ++ spelled_all (simple_code (Apply operator negated (meant_source source)))) }
{
    Op::Push.write(code)?;
    load(source).write(code)?;
    emit_not(code, negated)?;
    Op::Apply(operator).write(code)
}

/// LIMIT with the least and the greatest value.
fn emit_limit(code: &mut Vec<u8>, least: Source, most: Source) -> Result<(), AllocError>
    ensures { OnOk result (code.new.items ≡ code.old.items
        ++ spelled_all (simple_code (Limit (meant_source least) (meant_source most)))) }
{
    Op::Push.write(code)?;
    load(least).write(code)?;
    Op::Apply(Operator::Max).write(code)?;
    Op::Push.write(code)?;
    load(most).write(code)?;
    Op::Apply(Operator::Min).write(code)
}

/// SEL with what it gives where the result is FALSE, and where it is TRUE.
fn emit_select(code: &mut Vec<u8>, if_false: Source, if_true: Source) -> Result<(), AllocError>
    ensures { OnOk result (code.new.items ≡ code.old.items
        ++ spelled_all (simple_code (Select (meant_source if_false) (meant_source if_true)))) }
{
    Op::Push.write(code)?;
    load(if_false).write(code)?;
    Op::Push.write(code)?;
    load(if_true).write(code)?;
    Op::Select.write(code)
}

/// Appends the code of an instruction, by the type of the result before it and that of a literal that it loads.
#[cycle(emit_simple)]
pub(crate) fn emit_simple(
    code: &mut Vec<u8>,
    scope: Scope<'_, '_, '_>,
    running: Option<IlType>,
    loaded: IlType,
    simple: &Simple,
) -> Result<(), AllocError>
    ensures { OnOk result (code.new.items ≡ code.old.items
        ++ spelled_all (simple_code (resolved_simple (seen scope.entry) running loaded (written simple.now)))) }
{
    match simple {
        Simple::Load { negated, operand } => {
            load(source_of(scope, loaded, operand)).write(code)?;
            emit_not(code, *negated)
        }
        Simple::Apply {
            operator,
            negated,
            operand,
        } => {
            let source = source_of(scope, or_dint(running), operand);
            emit_apply(code, *operator, *negated, source)
        }
        Simple::Defer {
            operator,
            negated,
            operand,
            inner,
        } => {
            let inside = type_inside(scope, running, operand);
            Op::Push.write(code)?;
            emit_first(code, scope, or_dint(running), operand)?;
            emit_inner(code, scope, inside, whole_type(running), inner.as_slice())?;
            emit_not(code, *negated)?;
            Op::Apply(*operator).write(code)?;
            Ok(())
        }
        Simple::Limit { input, most } => {
            let wanted = or_dint(running);
            let least = source_of(scope, wanted, input);
            emit_limit(code, least, source_of(scope, wanted, most))
        }
        Simple::Select { if_false, if_true } => {
            let first = source_of(scope, type_beside(scope, if_true), if_false);
            let second = source_of(scope, type_beside(scope, if_false), if_true);
            emit_select(code, first, second)
        }
        Simple::Invert => Op::Not.write(code),
        Simple::Absolute => Op::Absolute.write(code),
        Simple::Convert { from, to } => Op::Convert(*from, *to).write(code),
    }
}

/// Appends the code of the lines inside parentheses.
#[cycle(emit_simple)]
fn emit_inner(
    code: &mut Vec<u8>,
    scope: Scope<'_, '_, '_>,
    running: Option<IlType>,
    otherwise: IlType,
    inner: &[InnerLine],
) -> Result<(), AllocError>
    ensures { OnOk result (code.new.items ≡ code.old.items
        ++ spelled_all (inner_code (resolved_inner (seen scope.entry) running otherwise (written_inner inner.now)))) }
{
    let mut before = running;
    let mut unless_next = otherwise;
    let mut rest = inner;
    for line in inner {
        rest = behind_first(rest);
        let loaded = loaded_inner_type(scope, unless_next, rest);
        emit_simple(code, scope, before, loaded, &line.simple)?;
        before = type_after(scope, before, loaded, &line.simple);
        unless_next = IlType::Dint;
    }
    Ok(())
}

/// Appends the code of what a line does, where so many counted jumps stand before it and the lines `rest`
/// after it.
fn emit_action(
    code: &mut Vec<u8>,
    scope: Scope<'_, '_, '_>,
    addresses: &[u16],
    counter: usize,
    running: Option<IlType>,
    rest: &[Statement],
    action: &Action,
) -> Result<(), AllocError>
    requires { counter + length (turns_of (Some action.now)) ≤ most_counted }
    ensures { OnOk result (code.new.items ≡ code.old.items
        ++ spelled_all (action_code (address_in addresses.now) (Some (resolved_action (seen scope.entry) counter running rest.now action.now)))) }
{
    match action {
        Action::Compute(computation) => {
            let simple = computation.as_simple();
            emit_simple(code, scope, running, loaded_type(scope, rest), simple)
        }
        Action::Store { negated, name } => {
            emit_not(code, *negated)?;
            store(place_of(scope, name)).write(code)?;
            emit_not(code, *negated)
        }
        Action::Set { value, name } => set(*value, place_of(scope, name)).write(code),
        Action::Jump {
            condition,
            label,
            turns,
        } => {
            let address = address_in(addresses, target(scope, label));
            match turns {
                None => Op::Jump(*condition, address).write(code),
                Some(turns) => Op::Repeat(*condition, counter as u8, *turns, address).write(code),
            }
        }
        Action::Return(condition) => return_op(*condition).write(code),
    }
}

/// Appends the code of a line.
pub(crate) fn emit_line(
    code: &mut Vec<u8>,
    scope: Scope<'_, '_, '_>,
    addresses: &[u16],
    counter: usize,
    running: Option<IlType>,
    rest: &[Statement],
    action: &Option<Action>,
) -> Result<(), AllocError>
    requires { counter + length (turns_of action.now) ≤ most_counted }
    ensures { OnOk result (code.new.items ≡ code.old.items
        ++ spelled_all (action_code (address_in addresses.now) (option_map (resolved_action (seen scope.entry) counter running rest.now) action.now))) }
{
    match action {
        Some(action) => emit_action(code, scope, addresses, counter, running, rest, action),
        None => Ok(()),
    }
}

/// How many counted jumps a line has.
pub(crate) fn count_turns(action: &Option<Action>) -> usize
    ensures is { result ≡ length (turns_of action.now) }
    ensures few { result ≤ 1 }
{
    match action {
        Some(Action::Jump { turns: Some(_), .. }) => 1,
        _ => 0,
    }
}

/// The second pass: appends the code of all lines, and the END after them.
pub(crate) fn emit_lines(
    code: &mut Vec<u8>,
    scope: Scope<'_, '_, '_>,
    addresses: &[u16],
    statements: &[Statement],
) -> Result<(), AllocError>
    requires { length (limits_of statements.now) ≤ most_counted }
    ensures { OnOk result (code.new.items ≡ code.old.items
        ++ spelled_all (lines_code (address_in addresses.now) (resolved_lines (seen scope.entry) 0 0 None statements.now))) }
{
    let mut counter = 0;
    let mut running = None;
    let mut rest = statements;
    while let [statement, after @ ..] = rest {
        let action = &statement.action;
        emit_line(code, scope, addresses, counter, running, after, action)?;
        counter += count_turns(action);
        running = type_after_line(scope, running, after, action);
        rest = after;
    }
    Op::End.write(code)?;
    Ok(())
}
