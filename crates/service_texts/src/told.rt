//! What is told of writes.
ghost use Rattle.std.specs.Prelude.{◌≡◌, ◌++◌, codes, string_bytes, IfOk};
ghost use Rattle.std.specs.Fmt.{decimal, signed_decimal};
ghost use Rattle.service_texts.specs.Telling as told;

use std::alloc::{AllocError, Global};

/// `set NAME NUMBER was NUMBER by ADDR`, or `was unset`.
pub fn set_line(
    alloc: Global,
    name: &str,
    number: Option<i64>,
    before: Option<i64>,
    by: &str,
) -> Result<String, AllocError>
    ensures { IfOk result (λ text. string_bytes text ≡ told.set_line name.now number before by.now) }
{
    let number = number_or(alloc, number, "unset")?;
    let before = number_or(alloc, before, "unset")?;
    line_of_set(alloc, name, number.as_str(), before.as_str(), by)
}

fn line_of_set(
    alloc: Global,
    name: &str,
    number: &str,
    before: &str,
    by: &str,
) -> Result<String, AllocError>
    ensures { IfOk result (λ text. string_bytes text ≡ codes "set " ++ name.now ++ codes " " ++ number.now ++ codes " was " ++ before.now ++ codes " by " ++ by.now) }
{
    let text = format!(in alloc; "set {name} {number} was {before} by {by}")?;
    Ok(text)
}

/// `set NAME lapsed`.
pub fn lapsed_line(alloc: Global, name: &str) -> Result<String, AllocError>
    ensures { IfOk result (λ text. string_bytes text ≡ told.lapsed_line name.now) }
{
    let text = format!(in alloc; "set {name} lapsed")?;
    Ok(text)
}

fn number_or(alloc: Global, number: Option<i64>, other: &str) -> Result<String, AllocError>
    ensures { IfOk result (λ text. string_bytes text ≡ told.number_or other.now number) }
{
    match number {
        Some(number) => number.to_string(alloc),
        None => String::from_str(alloc, other),
    }
}

/// `refused FUNCTION ADDRESS EXCEPTION`.
pub fn refused_text(
    alloc: Global,
    function: u8,
    address: Option<u16>,
    exception: u8,
) -> Result<String, AllocError>
    ensures { IfOk result (λ text. string_bytes text ≡ told.refused_text function address exception) }
{
    let address = address_text(alloc, address)?;
    text_of_refused(alloc, function, address.as_str(), exception)
}

fn address_text(alloc: Global, address: Option<u16>) -> Result<String, AllocError>
    ensures { IfOk result (λ text. string_bytes text ≡ told.address_text address) }
{
    match address {
        Some(address) => address.to_string(alloc),
        None => String::from_str(alloc, "-"),
    }
}

fn text_of_refused(
    alloc: Global,
    function: u8,
    address: &str,
    exception: u8,
) -> Result<String, AllocError>
    ensures { IfOk result (λ text. string_bytes text ≡ codes "refused " ++ decimal function ++ codes " " ++ address.now ++ codes " " ++ decimal exception) }
{
    let text = format!(in alloc; "refused {function} {address} {exception}")?;
    Ok(text)
}

/// ` NAME NUMBER LOW..HIGH`, what a write that was refused would have set, or ` NAME - LOW..HIGH`.
pub fn number_text(
    alloc: Global,
    name: &str,
    number: Option<i64>,
    low: i64,
    high: i64,
) -> Result<String, AllocError>
    ensures { IfOk result (λ text. string_bytes text ≡ told.number_text name.now number low high) }
{
    let number = number_or(alloc, number, "-")?;
    let number = number.as_str();
    text_of_number(alloc, name, number, low, high)
}

fn text_of_number(
    alloc: Global,
    name: &str,
    number: &str,
    low: i64,
    high: i64,
) -> Result<String, AllocError>
    ensures { IfOk result (λ text. string_bytes text ≡ codes " " ++ name.now ++ codes " " ++ number.now ++ codes " " ++ signed_decimal low ++ codes ".." ++ signed_decimal high) }
{
    let text = format!(in alloc; " {name} {number} {low}..{high}")?;
    Ok(text)
}

/// ` at REGISTER`, the first register for which a write was refused.
pub fn register_text(alloc: Global, register: usize) -> Result<String, AllocError>
    ensures { IfOk result (λ text. string_bytes text ≡ told.register_text register) }
{
    let text = format!(in alloc; " at {register}")?;
    Ok(text)
}

/// ` MODEL POINT`, the point of the gateway's own map that lies there.
pub fn point_text(alloc: Global, model: u16, point: &str) -> Result<String, AllocError>
    ensures { IfOk result (λ text. string_bytes text ≡ told.point_text model point.now) }
{
    let text = format!(in alloc; " {model} {point}")?;
    Ok(text)
}

/// `refused N more from ADDR`.
pub fn refused_more_line(alloc: Global, more: u64, from: &str) -> Result<String, AllocError>
    ensures { IfOk result (λ text. string_bytes text ≡ told.refused_more_line more from.now) }
{
    let text = format!(in alloc; "refused {more} more from {from}")?;
    Ok(text)
}
