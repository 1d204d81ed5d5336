//! Responses as bytes.
ghost use Rattle.std.specs.Prelude.{◌≡◌, ◌≤◌, length, Result};
ghost use Rattle.modbus_frame.specs.Message.{function_of, response_of, words_reply_of, wrote_reply_of, answer_bytes, wrote_reply, words_reply, refusal_bytes, IsAnswerTo, IsResponseTo, IsResponseOf, outcome_of};
ghost use Rattle.modbus_frame.specs.declared.message.Response.{Response as ResponseValue};
ghost use Rattle.modbus_frame.specs.declared.message.Exception.{Exception as ExceptionValue};
ghost use Rattle.modbus_frame.specs.declared.message.Response.TheVariants.{Wrote};

use crate::message::{Exception, ReplyFault, Request, Response};
use crate::pdu::Pdu;
use crate::request::{READ, WRITE_MANY, WRITE_ONE, pair_pdu, with_words, words_from};

const EXCEPTION: u8 = 0x80;

/// What a PDU answers to a request: the registers or the acknowledgement that belong to it, an exception with any
/// code, or [`ReplyFault::Mismatch`] for anything else
/// (Modbus Application Protocol V1.1b3, sections 6.3, 6.6, 6.12 and 7).
pub fn parse_response(request: &Request, pdu: &Pdu) -> Result<Response, ReplyFault>
    ensures exact { result ≡ response_of request.now pdu.now }

    // The same, told by the spelling of replies: what is sent for the request is what comes of it, and nothing else.
    ensures told { IsResponseOf request.now pdu.now result }
    ensures again { (answer : Result ResponseValue ExceptionValue) → IsAnswerTo request.now answer
        → pdu.now ≡ answer_bytes request.now answer → result ≡ outcome_of answer }
{
    parse(request, pdu.bytes())
}

fn parse(request: &Request, bytes: &[u8]) -> Result<Response, ReplyFault>
    requires { length bytes.now ≤ 253 }
    ensures { result ≡ response_of request.now bytes.now }
{
    if let [first, code] = bytes
        && *first == function(request) | EXCEPTION
    {
        return Err(ReplyFault::Exception(Exception(*code)));
    }
    match request {
        Request::Read { addr: _, qty } => parse_words(*qty, bytes),
        Request::WriteOne { addr, value } => parse_wrote(WRITE_ONE, *addr, *value, bytes),
        Request::WriteMany { addr, words } => {
            parse_wrote(WRITE_MANY, *addr, words.as_slice().len() as u16, bytes)
        }
    }
}

fn function(request: &Request) -> u8
    ensures { result ≡ function_of request.now }
{
    match request {
        Request::Read { .. } => READ,
        Request::WriteOne { .. } => WRITE_ONE,
        Request::WriteMany { .. } => WRITE_MANY,
    }
}

fn parse_words(qty: u16, bytes: &[u8]) -> Result<Response, ReplyFault>
    requires { length bytes.now ≤ 253 }
    ensures { result ≡ words_reply_of qty bytes.now }
{
    let len = 2 * qty as usize;
    match bytes {
        [READ, count, values @ ..] if *count as usize == len && values.len() == len => {
            Ok(Response::Words(words_from(values)))
        }
        _ => Err(ReplyFault::Mismatch),
    }
}

fn parse_wrote(function: u8, first: u16, second: u16, bytes: &[u8]) -> Result<Response, ReplyFault>
    ensures { result ≡ wrote_reply_of function first second bytes.now }
{
    match bytes {
        [f, a, b, c, d]
            if *f == function
                && u16::from_be_bytes([*a, *b]) == first
                && u16::from_be_bytes([*c, *d]) == second => { Ok(Response::Wrote) }
        _ => Err(ReplyFault::Mismatch),
    }
}

/// The PDU that answers a request with what was read or written, or with an exception. The response must be one to this
/// request: as many registers as it reads, or the acknowledgement of its writing.
pub fn response_pdu(request: &Request, answer: &Result<Response, Exception>) -> Pdu
    requires { IsAnswerTo request.now answer.now }
    ensures bytes { result ≡ answer_bytes request.now answer.now }

    // Parsed again it is the same response or exception.
    ensures again { response_of request.now result ≡ outcome_of answer.now }
{
    spell(request, answer)
}

fn spell(request: &Request, answer: &Result<Response, Exception>) -> Pdu
    requires { IsAnswerTo request.now answer.now }
    ensures { result ≡ answer_bytes request.now answer.now }
{
    match answer {
        Ok(Response::Words(words)) => words_pdu(words.as_slice()),
        Ok(Response::Wrote) => wrote_pdu(request),
        Err(exception) => {
            Pdu::from_bytes(&[function(request) | EXCEPTION, exception.0]).unwrap()
        }
    }
}

fn words_pdu(words: &[u16]) -> Pdu
    requires { length words.now ≤ 125 }
    ensures { result ≡ words_reply words.now }
{
    with_words(&[READ, 2 * words.len() as u8], words)
}

fn wrote_pdu(request: &Request) -> Pdu
    requires { IsResponseTo request.now Wrote }
    ensures { result ≡ wrote_reply request.now }
{
    match request {
        Request::Read { .. } => unreachable!(),
        Request::WriteOne { addr, value } => pair_pdu(WRITE_ONE, *addr, *value),
        Request::WriteMany { addr, words } => {
            pair_pdu(WRITE_MANY, *addr, words.as_slice().len() as u16)
        }
    }
}

/// The exception reply to a PDU that [`parse_request`](crate::parse_request) refused: its function with the top bit
/// set, and the code.
pub fn exception_pdu(request: &Pdu, exception: Exception) -> Pdu
    ensures { result ≡ refusal_bytes request.now exception }
{
    Pdu::from_bytes(&[request.bytes()[0] | EXCEPTION, exception.0]).unwrap()
}
