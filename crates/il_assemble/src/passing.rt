//! The line whose code is the first that has no room.
ghost use Rattle.std.specs.Prelude.{◌≡◌, ◌++◌, [], ◌∷◌, IfOk, length};
ghost use Rattle.scan_code.specs.declared.op.Op.TheVariants as does;
ghost use Rattle.il_assemble.specs.Code.{not_code, start_code};
ghost use Rattle.il_assemble.specs.Elaboration.{first_source, inner_parts, parts_of, passing_line};
ghost use Rattle.il_assemble.specs.Kept.{Reaches, seen, within};
ghost use Rattle.il_assemble.specs.Written.{written, written_inner};

use crate::emit::{emit_first, emit_not, emit_simple};
use crate::limits::MOST_CODE;
use crate::scope::Scope;
use crate::typing::{
    behind_first, loaded_inner_type, loaded_type, or_dint, type_after, type_inside, whole_type,
};
use il_reader::{Action, InnerLine, Operand, Simple, Statement};
use point_types::{IlType, Operator};
use scan_code::Op;
use std::alloc::AllocError;

/// The line of a statement where its code passes the limit, after the code of those before it: inside
/// parentheses that of the inner instruction.
pub(crate) fn passing_line(
    code: &mut Vec<u8>,
    scope: Scope<'_, '_, '_>,
    running: Option<IlType>,
    rest: &[Statement],
    statement: &Statement,
) -> Result<u32, AllocError>
    ensures { IfOk result (λ line. line ≡ passing_line (seen scope.entry) (length code.old.items) running rest.now statement.now.line statement.now.action) }
{
    let line = statement.line;
    match &statement.action {
        Some(Action::Compute(computation)) => {
            let loaded = loaded_type(scope, rest);
            let simple = computation.as_simple();
            match write_parts(code, scope, line, running, loaded, simple)? {
                Ok(()) => Ok(line),
                Err(passing) => Ok(passing),
            }
        }
        _ => Ok(line),
    }
}

/// Whether the code is within the limit; else this line passes it.
fn within(code: &[u8], line: u32) -> Result<(), u32>
    ensures { result ≡ within (length code.now) line }
{
    if code.len() <= MOST_CODE {
        Ok(())
    } else {
        Err(line)
    }
}

/// Appends the code of an instruction part by part, up to the first that passes the limit: its line.
#[cycle(write_parts)]
fn write_parts(
    code: &mut Vec<u8>,
    scope: Scope<'_, '_, '_>,
    line: u32,
    running: Option<IlType>,
    loaded: IlType,
    simple: &Simple,
) -> Result<Result<(), u32>, AllocError>
    ensures { IfOk result (λ ends. Reaches (length code.old.items) (parts_of (seen scope.entry) line running loaded (written simple.now)) ends (length code.new.items)) }
{
    match simple {
        Simple::Defer {
            operator,
            negated,
            operand,
            inner,
        } => {
            let inside = type_inside(scope, running, operand);
            if let Err(passing) = write_opening(code, scope, line, or_dint(running), operand)? {
                return Ok(Err(passing));
            }
            let otherwise = whole_type(running);
            if let Err(passing) = write_inner(code, scope, inside, otherwise, inner.as_slice())? {
                return Ok(Err(passing));
            }
            let closing = write_closing(code, line, *operator, *negated)?;
            Ok(closing)
        }
        _ => {
            emit_simple(code, scope, running, loaded, simple)?;
            Ok(within(code.as_slice(), line))
        }
    }
}

/// What stands before the lines inside parentheses.
fn write_opening(
    code: &mut Vec<u8>,
    scope: Scope<'_, '_, '_>,
    line: u32,
    wanted: IlType,
    operand: &Option<Operand>,
) -> Result<Result<(), u32>, AllocError>
    ensures { IfOk result (λ ends. Reaches (length code.old.items)
        (record { line = line; code = does.Push ∷ start_code (first_source (seen scope.entry) wanted operand.now) } ∷ []) ends (length code.new.items)) }
{
    Op::Push.write(code)?;
    emit_first(code, scope, wanted, operand)?;
    Ok(within(code.as_slice(), line))
}

/// The operator after the lines inside parentheses.
fn write_closing(
    code: &mut Vec<u8>,
    line: u32,
    operator: Operator,
    negated: bool,
) -> Result<Result<(), u32>, AllocError>
    ensures { IfOk result (λ ends. Reaches (length code.old.items)
        (record { line = line; code = not_code negated ++ does.Apply operator ∷ [] } ∷ []) ends (length code.new.items)) }
{
    emit_not(code, negated)?;
    Op::Apply(operator).write(code)?;
    Ok(within(code.as_slice(), line))
}

/// The lines inside parentheses.
#[cycle(write_parts)]
fn write_inner(
    code: &mut Vec<u8>,
    scope: Scope<'_, '_, '_>,
    running: Option<IlType>,
    otherwise: IlType,
    inner: &[InnerLine],
) -> Result<Result<(), u32>, AllocError>
    ensures { IfOk result (λ ends. Reaches (length code.old.items) (inner_parts (seen scope.entry) running otherwise (written_inner inner.now)) ends (length code.new.items)) }
{
    let mut before = running;
    let mut unless_next = otherwise;
    let mut rest = inner;
    for line in inner {
        rest = behind_first(rest);
        let loaded = loaded_inner_type(scope, unless_next, rest);
        if let Err(passing) = write_parts(code, scope, line.line, before, loaded, &line.simple)? {
            return Ok(Err(passing));
        }
        before = type_after(scope, before, loaded, &line.simple);
        unless_next = IlType::Dint;
    }
    Ok(Ok(()))
}
