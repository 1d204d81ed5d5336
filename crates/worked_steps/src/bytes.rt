//! What the words of a step say: numbers, bytes and registers.
use crate::fault::{Shown, StepFault};
use modbus_frame::Pdu;
use std::alloc::Global;
use std::str::FromStr;

/// What a step needs, where it is there.
pub(crate) fn needed<T>(found: Option<T>) -> Shown<T> {
    match found {
        Some(found) => Ok(found),
        None => Err(StepFault::Step),
    }
}

/// The number that a word is.
pub(crate) fn number<T: FromStr>(word: &str) -> Option<T>
where
    T::Err: Drop,
{
    match word.parse::<T>() {
        Ok(number) => Some(number),
        Err(_) => None,
    }
}

/// The bytes that words spell, each by two digits a byte, or by `DIGITS*TIMES` so many times.
pub(crate) fn bytes_of(alloc: Global, words: &[&str]) -> Shown<Vec<u8>> {
    let mut bytes = Vec::new(alloc);
    for word in words {
        push_bytes(alloc, &mut bytes, *word)?;
    }
    Ok(bytes)
}

fn push_bytes(alloc: Global, bytes: &mut Vec<u8>, word: &str) -> Shown<()> {
    let (digits, times) = word.split_once("*").unwrap_or((word, "1"));
    let part = needed(hex::decode(alloc, digits).ok())?;
    for _ in 0..needed(times.parse::<usize>().ok())? {
        bytes.extend_from_slice(part.as_slice())?;
    }
    Ok(())
}

/// How bytes are shown, `-` where there are none.
pub(crate) fn hex_of(alloc: Global, bytes: &[u8]) -> Shown<String> {
    match bytes {
        [] => Ok("-".to_string(alloc)?),
        _ => Ok(hex::encode(alloc, bytes)?),
    }
}

/// The PDU of such bytes.
pub(crate) fn pdu_of(alloc: Global, words: &[&str]) -> Shown<Pdu> {
    needed(Pdu::from_bytes(&bytes_of(alloc, words)?))
}

/// The registers of such bytes.
pub(crate) fn registers_of(alloc: Global, words: &[&str]) -> Shown<Vec<u16>> {
    registers_in(alloc, &bytes_of(alloc, words)?)
}

/// The registers that bytes are, two of them each.
pub(crate) fn registers_in(alloc: Global, bytes: &[u8]) -> Shown<Vec<u16>> {
    let mut registers = Vec::new(alloc);
    let mut rest = bytes;
    for _ in 0..bytes.len() {
        let [high, low, more @ ..] = rest else {
            break;
        };
        registers.push(u16::from_be_bytes([*high, *low]))?;
        rest = more;
    }
    Ok(registers)
}
