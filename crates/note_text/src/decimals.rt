//! Values as decimal numbers.
use std::alloc::{AllocError, Global};

/// The value `number * 10^exponent` as a decimal number, with as many places after the point as the exponent has.
pub fn decimal(alloc: Global, number: i128, exponent: i8) -> Result<String, AllocError> {
    let places = u32::from(exponent.unsigned_abs());
    if exponent < 0 {
        return with_places(alloc, number, places);
    }
    let mut text = digits(alloc, number)?;
    if number != 0 {
        push_zeros(&mut text, places)?;
    }
    Ok(text)
}

fn digits(alloc: Global, number: i128) -> Result<String, AllocError> {
    let text = format!(in alloc; "{number}")?;
    Ok(text)
}

fn push_zeros(text: &mut String, count: u32) -> Result<(), AllocError> {
    for _ in 0..count {
        text.push_str("0")?;
    }
    Ok(())
}

/// A number of which so many digits stand after the point.
fn with_places(alloc: Global, number: i128, places: u32) -> Result<String, AllocError> {
    let Some(unit) = 10u128.checked_pow(places) else {
        return digits(alloc, number);
    };
    let size = number.unsigned_abs();
    let (whole, part) = (
        size.checked_div(unit).unwrap_or(0),
        size.checked_rem(unit).unwrap_or(0),
    );
    let sign = if number < 0 { "-" } else { "" };
    let mut text = format!(in alloc; "{sign}{whole}")?;
    let part = format!(in alloc; "{part}")?;
    text.push_str(".")?;
    let missing = places.saturating_sub(u32::try_from(part.len()).unwrap_or(places));
    push_zeros(&mut text, missing)?;
    text.push_str(part.as_str())?;
    Ok(text)
}
