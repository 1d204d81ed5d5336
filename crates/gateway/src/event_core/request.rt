//! What clients ask for, and what goes back.
ghost use Rattle.std.specs.Prelude.{◌≡◌, ◌≤◌, length};
ghost use Rattle.modbus_frame.specs.Message.{IsAnswerTo};
ghost use Rattle.gateway.specs.event_core.SiteRun.{slice_of};

use modbus_frame::{Exception, Request, Response, Words};

/// Registers of an image that begins at an address; 02 where they aren't all there.
pub(crate) fn read(image: &[u16], base: u16, addr: u16, qty: u16) -> Result<Response, Exception>
    requires { qty ≤ 125 }
    ensures value { result ≡ slice_of base image.now addr qty }
    ensures fits { IsAnswerTo (Request.Read addr qty) result }
{
    if addr < base {
        return Err(Exception::ILLEGAL_DATA_ADDRESS);
    }
    let at = usize::from(addr - base);
    let end = at + usize::from(qty);
    if end > image.len() {
        return Err(Exception::ILLEGAL_DATA_ADDRESS);
    }
    match Words::from_slice(&image[at..end]) {
        Some(words) => Ok(Response::Words(words)),
        None => Err(Exception::ILLEGAL_DATA_ADDRESS),
    }
}
