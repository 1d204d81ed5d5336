//! Requests as bytes.
ghost use Rattle.std.specs.Prelude.{◌≡◌, ◌+◌, ◌*◌, ◌≤◌, ◌∷◌, ◌++◌, length, IfOk, Ok};
ghost use Rattle.modbus_frame.specs.Bytes.{number_bytes, word_bytes, words_of};
ghost use Rattle.modbus_frame.specs.Message.{IsRequest, IsRequestOf, HasQuantity, HasAddresses, request_of, read_of, write_one_of, write_many_of, addressed, request_bytes};
ghost use Rattle.modbus_frame.specs.declared.message.Request.{Request as RequestValue};

use crate::message::{Exception, Request};
use crate::pdu::Pdu;
use crate::words::Words;
use arrayvec::ArrayVec;

pub(crate) const READ: u8 = 3;

pub(crate) const WRITE_ONE: u8 = 6;

pub(crate) const WRITE_MANY: u8 = 16;

/// The request that a PDU is, or the exception that answers it: for another function, then for a wrong length,
/// quantity or count, then for registers past the last address
/// (Modbus Application Protocol V1.1b3, sections 6.3, 6.6 and 6.12).
pub fn parse_request(pdu: &Pdu) -> Result<Request, Exception>
    ensures exact { result ≡ request_of pdu.now }

    // The same, told by the spelling of requests: a request has it, and each refusal its reason.
    ensures told { IsRequestOf pdu.now result }
    ensures again { (r : RequestValue) → IsRequest r → pdu.now ≡ request_bytes r → result ≡ Ok r }
{
    parse(pdu.bytes())
}

fn parse(bytes: &[u8]) -> Result<Request, Exception>
    ensures { result ≡ request_of bytes.now }
{
    match bytes {
        [READ, fields @ ..] => parse_read(fields),
        [WRITE_ONE, fields @ ..] => parse_write_one(fields),
        [WRITE_MANY, fields @ ..] => parse_write_many(fields),
        _ => Err(Exception::ILLEGAL_FUNCTION),
    }
}

fn parse_read(fields: &[u8]) -> Result<Request, Exception>
    ensures { result ≡ read_of fields.now }
{
    match fields {
        [a, b, c, d] => {
            let addr = u16::from_be_bytes([*a, *b]);
            let qty = u16::from_be_bytes([*c, *d]);
            if qty < 1 || qty > 125 {
                return Err(Exception::ILLEGAL_DATA_VALUE);
            }
            within_addresses(addr, qty, Request::Read { addr, qty })
        }
        _ => Err(Exception::ILLEGAL_DATA_VALUE),
    }
}

fn parse_write_one(fields: &[u8]) -> Result<Request, Exception>
    ensures { result ≡ write_one_of fields.now }
{
    match fields {
        [a, b, c, d] => Ok(Request::WriteOne {
            addr: u16::from_be_bytes([*a, *b]),
            value: u16::from_be_bytes([*c, *d]),
        }),
        _ => Err(Exception::ILLEGAL_DATA_VALUE),
    }
}

fn parse_write_many(fields: &[u8]) -> Result<Request, Exception>
    ensures { result ≡ write_many_of fields.now }
{
    match fields {
        [a, b, c, d, count, values @ ..] => {
            let addr = u16::from_be_bytes([*a, *b]);
            let qty = u16::from_be_bytes([*c, *d]);
            if qty < 1
                || qty > 123
                || *count as u16 != 2 * qty
                || values.len() != 2 * qty as usize
            {
                return Err(Exception::ILLEGAL_DATA_VALUE);
            }
            let words = words_from(values);
            within_addresses(addr, qty, Request::WriteMany { addr, words })
        }
        _ => Err(Exception::ILLEGAL_DATA_VALUE),
    }
}

fn within_addresses(addr: u16, qty: u16, request: Request) -> Result<Request, Exception>
    ensures { result ≡ addressed addr qty request }
{
    if addr as u32 + qty as u32 > 65536 {
        return Err(Exception::ILLEGAL_DATA_ADDRESS);
    }
    Ok(request)
}

// The registers that the bytes stand for, two bytes each.
pub(crate) fn words_from(bytes: &[u8]) -> Words
    requires { length bytes.now ≤ 250 }
    ensures { result ≡ words_of bytes.now }
{
    let mut words = Words::new();
    let mut rest = bytes;
    while let [high, low, after @ ..] = rest {
        words.push(u16::from_be_bytes([*high, *low]));
        rest = after;
    }
    words
}

/// The PDU of a request.
pub fn request_pdu(request: &Request) -> Pdu
    requires { HasQuantity request.now }
    ensures bytes { result ≡ request_bytes request.now }

    // Parsed again it is the same request.
    ensures again { HasAddresses request.now → request_of result ≡ Ok request.now }
{
    match request {
        Request::Read { addr, qty } => pair_pdu(READ, *addr, *qty),
        Request::WriteOne { addr, value } => pair_pdu(WRITE_ONE, *addr, *value),
        Request::WriteMany { addr, words } => write_many_pdu(*addr, words.as_slice()),
    }
}

// A function and two numbers.
pub(crate) fn pair_pdu(function: u8, first: u16, second: u16) -> Pdu
    ensures { result ≡ function ∷ number_bytes first ++ number_bytes second }
{
    let [a, b] = first.to_be_bytes();
    let [c, d] = second.to_be_bytes();
    Pdu::from_bytes(&[function, a, b, c, d]).unwrap()
}

fn write_many_pdu(addr: u16, words: &[u16]) -> Pdu
    requires { length words.now ≤ 123 }
    ensures { result ≡ 16 ∷ number_bytes addr ++ number_bytes (length words.now)
        ++ (2 * length words.now) ∷ word_bytes words.now }
{
    let [a, b] = addr.to_be_bytes();
    let [c, d] = (words.len() as u16).to_be_bytes();
    let count = 2 * words.len() as u8;
    with_words(&[WRITE_MANY, a, b, c, d, count], words)
}

// These bytes, and then those of the registers.
pub(crate) fn with_words(front: &[u8], words: &[u16]) -> Pdu
    requires some { 1 ≤ length front.now }
    requires room { length front.now + 2 * length words.now ≤ 253 }
    ensures { result ≡ front.now ++ word_bytes words.now }
{
    let mut bytes: ArrayVec<u8, 253> = ArrayVec::new();
    bytes.try_extend_from_slice(front).unwrap();
    for word in words {
        bytes.try_extend_from_slice(&word.to_be_bytes()).unwrap();
    }
    Pdu::from_bytes(&bytes).unwrap()
}
