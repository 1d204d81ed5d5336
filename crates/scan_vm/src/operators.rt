//! What the operators make of values (IEC 61131-3 edition 2, 2.5.1.5 and 3.2.2).

ghost use Rattle.std.specs.Prelude.{◌≡◌, ◌≢◌, ℤ, pos, int_div, int_rem, ◌&&◌, not, if◌then◌else◌, Ok, Err, SomeIff, FitsSigned};
ghost use Rattle.std.specs.Int.{w64};
ghost use Rattle.point_types.specs.declared.operator.Operator.TheVariants as op;
ghost use Rattle.point_types.specs.Value.{applied, fitted, int_eq, inverted, is_bool, same_kind, truth};
ghost use Rattle.scan_code.specs.Table.{absolute_of, converted, selected};
ghost use Rattle.scan_vm.specs.Outcome.{told};

use crate::trap::TrapKind;
use crate::value::Value;
use point_types::{IlType, Operator};

/// The left value, the operator, the right value.
pub(crate) fn apply(operator: Operator, left: Value, right: Value) -> Result<Value, TrapKind>
    ensures { result ≡ told (applied operator left right) }
{
    match operator {
        Operator::And => and(left, right),
        Operator::Or => or(left, right),
        Operator::Xor => xor(left, right),
        Operator::Add => add(left, right),
        Operator::Sub => sub(left, right),
        Operator::Mul => mul(left, right),
        Operator::Div => div(left, right),
        Operator::Mod => modulo(left, right),
        Operator::Gt => greater(left, right),
        Operator::Ge => greater_or_equal(left, right),
        Operator::Eq => equal(left, right),
        Operator::Ne => not_equal(left, right),
        Operator::Le => less_or_equal(left, right),
        Operator::Lt => less(left, right),
        Operator::Min => least(left, right),
        Operator::Max => greatest(left, right),
    }
}

/// NOT of a BOOL.
pub(crate) fn invert(value: Value) -> Result<Value, TrapKind>
    ensures { result ≡ told (inverted value) }
{
    if value.kind() == IlType::Bool {
        Ok(Value::truth(value.number() == 0))
    } else {
        Err(TrapKind::WrongType)
    }
}

/// ABS of a whole number.
pub(crate) fn absolute(value: Value) -> Result<Value, TrapKind>
    ensures { result ≡ told (absolute_of value) }
{
    if value.kind() == IlType::Bool {
        return Err(TrapKind::WrongType);
    }
    fit_checked(value.kind(), value.number().checked_abs())
}

/// A conversion between two whole-number types.
pub(crate) fn convert(from: IlType, to: IlType, value: Value) -> Result<Value, TrapKind>
    ensures { result ≡ told (converted from to value) }
{
    if value.kind() == from {
        fit(to, value.number())
    } else {
        Err(TrapKind::WrongType)
    }
}

/// SEL: the first of two values where the chooser is FALSE, else the second.
pub(crate) fn select(chooser: Value, first: Value, second: Value) -> Result<Value, TrapKind>
    ensures { result ≡ told (selected chooser first second) }
{
    if chooser.kind() != IlType::Bool || first.kind() != second.kind() {
        Err(TrapKind::WrongType)
    } else if chooser.number() == 1 {
        Ok(second)
    } else {
        Ok(first)
    }
}

/// Both as truth values.
fn truths(left: Value, right: Value) -> Result<(bool, bool), TrapKind>
    ensures { result ≡ (if is_bool left.kind && is_bool right.kind then Ok (int_eq left.number (pos 1), int_eq right.number (pos 1)) else Err TrapKind.WrongType) }
{
    if left.kind() == IlType::Bool && right.kind() == IlType::Bool {
        Ok((left.number() == 1, right.number() == 1))
    } else {
        Err(TrapKind::WrongType)
    }
}

/// That both are whole numbers of one type.
fn check_numbers(left: Value, right: Value) -> Result<(), TrapKind>
    ensures { result ≡ (if same_kind left right && not (is_bool left.kind) then Ok tt else Err TrapKind.WrongType) }
{
    if left.kind() == right.kind() && left.kind() != IlType::Bool {
        Ok(())
    } else {
        Err(TrapKind::WrongType)
    }
}

/// A number as a value of a type.
fn fit(kind: IlType, n: i64) -> Result<Value, TrapKind>
    ensures { result ≡ told (fitted kind n) }
{
    if kind.low() <= n && n <= kind.high() {
        Ok(Value::new(kind, n))
    } else {
        Err(TrapKind::Overflow)
    }
}

/// The outcome of a checked operation as a value of a type.
fn fit_checked(kind: IlType, n: Option<i64>) -> Result<Value, TrapKind>
    ensures { (z : ℤ) → SomeIff n (FitsSigned w64 z) z → result ≡ told (fitted kind z) }
{
    match n {
        Some(n) => fit(kind, n),
        None => Err(TrapKind::Overflow),
    }
}

/// The outcome of a checked operation on two whole numbers of one type, as a value of that type.
fn fit_numbers(left: Value, right: Value, n: Option<i64>) -> Result<Value, TrapKind>
    ensures { (z : ℤ) → SomeIff n (FitsSigned w64 z) z → result ≡ (if same_kind left right && not (is_bool left.kind) then told (fitted left.kind z) else Err TrapKind.WrongType) }
{
    check_numbers(left, right)?;
    fit_checked(left.kind(), n)
}

fn and(left: Value, right: Value) -> Result<Value, TrapKind>
    ensures { result ≡ told (applied op.And left right) }
{
    let (a, b) = truths(left, right)?;
    Ok(Value::truth(a && b))
}

fn or(left: Value, right: Value) -> Result<Value, TrapKind>
    ensures { result ≡ told (applied op.Or left right) }
{
    let (a, b) = truths(left, right)?;
    Ok(Value::truth(a || b))
}

fn xor(left: Value, right: Value) -> Result<Value, TrapKind>
    ensures { result ≡ told (applied op.Xor left right) }
{
    let (a, b) = truths(left, right)?;
    Ok(Value::truth(a != b))
}

fn add(left: Value, right: Value) -> Result<Value, TrapKind>
    ensures { result ≡ told (applied op.Add left right) }
{
    fit_numbers(left, right, left.number().checked_add(right.number()))
}

fn sub(left: Value, right: Value) -> Result<Value, TrapKind>
    ensures { result ≡ told (applied op.Sub left right) }
{
    fit_numbers(left, right, left.number().checked_sub(right.number()))
}

fn mul(left: Value, right: Value) -> Result<Value, TrapKind>
    ensures { result ≡ told (applied op.Mul left right) }
{
    fit_numbers(left, right, left.number().checked_mul(right.number()))
}

/// The quotient, cut toward zero.
fn div(left: Value, right: Value) -> Result<Value, TrapKind>
    ensures { result ≡ told (applied op.Div left right) }
{
    check_numbers(left, right)?;
    if right.number() == 0 {
        return Err(TrapKind::ZeroDivisor);
    }
    quotient(left, right)
}

fn quotient(left: Value, right: Value) -> Result<Value, TrapKind>
    requires { right.number ≢ pos 0 }
    ensures { result ≡ told (fitted left.kind (int_div left.number right.number)) }
{
    fit_checked(left.kind(), left.number().checked_div(right.number()))
}

/// What DIV leaves; of the least number by -1 that is 0.
fn modulo(left: Value, right: Value) -> Result<Value, TrapKind>
    ensures { result ≡ told (applied op.Mod left right) }
{
    check_numbers(left, right)?;
    if right.number() == 0 {
        return Err(TrapKind::ZeroDivisor);
    }
    rest(left, right)
}

fn rest(left: Value, right: Value) -> Result<Value, TrapKind>
    requires { right.number ≢ pos 0 }
    ensures { result ≡ told (fitted left.kind (int_rem left.number right.number)) }
{
    fit(left.kind(), left.number().wrapping_rem(right.number()))
}

fn greater(left: Value, right: Value) -> Result<Value, TrapKind>
    ensures { result ≡ told (applied op.Gt left right) }
{
    check_numbers(left, right)?;
    Ok(Value::truth(left.number() > right.number()))
}

fn greater_or_equal(left: Value, right: Value) -> Result<Value, TrapKind>
    ensures { result ≡ told (applied op.Ge left right) }
{
    check_numbers(left, right)?;
    Ok(Value::truth(left.number() >= right.number()))
}

/// EQ compares BOOL too.
fn equal(left: Value, right: Value) -> Result<Value, TrapKind>
    ensures { result ≡ told (applied op.Eq left right) }
{
    if left.kind() == right.kind() {
        Ok(Value::truth(left.number() == right.number()))
    } else {
        Err(TrapKind::WrongType)
    }
}

/// NE compares BOOL too.
fn not_equal(left: Value, right: Value) -> Result<Value, TrapKind>
    ensures { result ≡ told (applied op.Ne left right) }
{
    if left.kind() == right.kind() {
        Ok(Value::truth(left.number() != right.number()))
    } else {
        Err(TrapKind::WrongType)
    }
}

fn less_or_equal(left: Value, right: Value) -> Result<Value, TrapKind>
    ensures { result ≡ told (applied op.Le left right) }
{
    check_numbers(left, right)?;
    Ok(Value::truth(left.number() <= right.number()))
}

fn less(left: Value, right: Value) -> Result<Value, TrapKind>
    ensures { result ≡ told (applied op.Lt left right) }
{
    check_numbers(left, right)?;
    Ok(Value::truth(left.number() < right.number()))
}

fn least(left: Value, right: Value) -> Result<Value, TrapKind>
    ensures { result ≡ told (applied op.Min left right) }
{
    check_numbers(left, right)?;
    if right.number() < left.number() {
        fit(left.kind(), right.number())
    } else {
        fit(left.kind(), left.number())
    }
}

fn greatest(left: Value, right: Value) -> Result<Value, TrapKind>
    ensures { result ≡ told (applied op.Max left right) }
{
    check_numbers(left, right)?;
    if left.number() < right.number() {
        fit(left.kind(), right.number())
    } else {
        fit(left.kind(), left.number())
    }
}
