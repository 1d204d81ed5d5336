//! What is noted of a link that failed: which device and model was asked, and what came.
ghost use Rattle.std.specs.Prelude.{◌≡◌, Some, IfSome};

use crate::links::watched_link::{Front, WatchedLink, WatchedRequest};
use commands::definitions::definitions;
use file_keys::TomlFile;
use gateway::Poller;
use modbus_frame::{Link, LinkFault, Request};
use refusal_notes::RefusalNote;
use site_model::Site;
use std::alloc::{AllocError, Global};

/// The function that reads registers (Modbus Application Protocol V1.1b3, 6.3).
const READ: u8 = 3;

/// The function that writes one register (6.6).
const WRITE_ONE: u8 = 6;

/// The cause of a link's fault, which ended a poller's work over a site; nothing goes over the link for it. Where memory
/// for a part of it is refused, it goes without.
pub fn cause_of_link<L: Link>(
    alloc: Global,
    site: &TomlFile<'_>,
    defs: &[String],
    poller: &mut Poller<WatchedLink<L>>,
) -> Option<RefusalNote>
    ensures { IfSome poller.old.fault (λ _. poller.new ≡ poller.old) }
{
    let fault = fault_of(poller)?;
    let mut cause = RefusalNote::unlinked(alloc, fault);
    if let Ok(detail) = asked_and_came(alloc, site, defs, poller.link()) {
        cause.detail = detail;
    }
    Some(cause)
}

/// The fault that ended a poller's work: it answers each request after it by that fault, and sends nothing.
fn fault_of<L: Link>(poller: &mut Poller<WatchedLink<L>>) -> Option<LinkFault>
    ensures { IfSome poller.old.fault (λ fault. (result ≡ Some fault) × (poller.new ≡ poller.old)) }
{
    poller.ask(0, &Request::Read { addr: 0, qty: 1 }).err()
}

/// Which device was asked for what, and what came; empty where nothing was asked.
fn asked_and_came<L: Link>(
    alloc: Global,
    site: &TomlFile<'_>,
    defs: &[String],
    link: &WatchedLink<L>,
) -> Result<String, AllocError> {
    let mut text = String::new(alloc);
    let Some(asked) = link.asked() else {
        return Ok(text);
    };
    push_device(alloc, &mut text, site, defs, asked.unit)?;
    text.push_str(" was asked ")?;
    push_asked(
        alloc,
        &mut text,
        asked,
        link.model_of(asked.unit, asked.addr),
    )?;
    push_came(alloc, &mut text, &link.came())?;
    Ok(text)
}

/// Appends the name of the unit's device in the site file, and the unit.
fn push_device(
    alloc: Global,
    text: &mut String,
    site: &TomlFile<'_>,
    defs: &[String],
    unit: u8,
) -> Result<(), AllocError> {
    if let Ok(models) = definitions(alloc, defs) {
        if let Ok(site) = Site::read_file(alloc, site, models.as_slice()) {
            push_name(text, &site, unit)?;
        }
    }
    let unit = format!(in alloc; "unit {unit},")?;
    text.push_str(unit.as_str())
}

fn push_name(text: &mut String, site: &Site, unit: u8) -> Result<(), AllocError> {
    for device in site.devices() {
        if device.unit == unit {
            text.push_str(device.name.as_str())?;
            return text.push_str(", ");
        }
    }
    Ok(())
}

/// Appends what was asked: of the search for its map, of a model's registers, or of registers alone.
fn push_asked(
    alloc: Global,
    text: &mut String,
    asked: WatchedRequest,
    model: Option<u16>,
) -> Result<(), AllocError> {
    let addr = asked.addr;
    let last = addr.saturating_add(asked.qty.saturating_sub(1));
    let registers = match (asked.function, asked.qty) {
        (READ, 1) => format!(in alloc; "for a model's ID or length, register {addr}")?,
        (READ, _) => format!(in alloc; "for registers {addr}..{last}")?,
        (WRITE_ONE, _) | (_, 1) => format!(in alloc; "to take register {addr}")?,
        (_, _) => format!(in alloc; "to take registers {addr}..{last}")?,
    };
    text.push_str(registers.as_str())?;
    match model {
        Some(model) if asked.function != READ || asked.qty > 1 => {
            let model = format!(in alloc; " of model {model}")?;
            text.push_str(model.as_str())
        }
        None if asked.function == READ && asked.qty == 2 => {
            text.push_str(", the mark of its map")
        }
        _ => Ok(()),
    }
}

/// Appends how many bytes came, and the first of them.
fn push_came(alloc: Global, text: &mut String, came: &Front) -> Result<(), AllocError> {
    if came.count() == 0 {
        return text.push_str("; nothing came");
    }
    let count = came.count();
    let line = format!(in alloc; "; {count} bytes came:")?;
    text.push_str(line.as_str())?;
    for byte in came.kept() {
        let byte = format!(in alloc; " {byte:02x}")?;
        text.push_str(byte.as_str())?;
    }
    if came.kept().len() < count {
        text.push_str(" ..")?;
    }
    Ok(())
}
