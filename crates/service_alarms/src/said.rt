//! What a device says of itself against what it must say.
use crate::labels::{is_same_label, push_label};
use service::Identity;
use std::alloc::{AllocError, Global};

/// What a device says of itself: the registers of three texts of its common model (SunSpec Device Information Model
/// Specification, model 1).
#[derive(Clone, Copy)]
pub struct Said<'a> {
    /// Mn.
    pub maker: &'a [u16],
    /// Md.
    pub model: &'a [u16],
    /// SN.
    pub serial: &'a [u16],
}

impl<'a> Said<'a> {
    /// By the registers of that model from Mn on; of none it says nothing.
    pub fn of(registers: &'a [u16]) -> Said<'a> {
        Said {
            maker: registers.get(..16).unwrap_or(&[]),
            model: registers.get(16..32).unwrap_or(&[]),
            serial: registers.get(48..64).unwrap_or(&[]),
        }
    }
}

/// `is another SN TEXT`, of a device: what it says otherwise than it must. `Mn TEXT` or `Md TEXT` where its serial number is the
/// right one, or may be any.
pub fn another_text(
    alloc: Global,
    identity: Option<Identity>,
    said: Said<'_>,
) -> Result<String, AllocError> {
    let (point, registers) = other_part(alloc, identity, said)?;
    let mut text = format!(in alloc; "is another {point} ")?;
    push_label(alloc, &mut text, registers)?;
    Ok(text)
}

/// The first part that a device says otherwise, with its point.
fn other_part<'a>(
    alloc: Global,
    identity: Option<Identity>,
    said: Said<'a>,
) -> Result<(&'static str, &'a [u16]), AllocError> {
    let Some(identity) = identity else {
        return Ok(("SN", said.serial));
    };
    if !is_said(alloc, identity.serial, said.serial)? {
        return Ok(("SN", said.serial));
    }
    if !is_said(alloc, identity.maker, said.maker)? {
        return Ok(("Mn", said.maker));
    }
    Ok(("Md", said.model))
}

/// Whether a device says a text, where it must.
pub fn is_said(alloc: Global, label: Option<[u16; 16]>, said: &[u16]) -> Result<bool, AllocError> {
    match label {
        Some(label) => is_same_label(alloc, label.as_slice(), said),
        None => Ok(true),
    }
}
