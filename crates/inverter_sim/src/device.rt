//! A simulated device: its registers, and what it works as.
ghost use Rattle.std.specs.Prelude.{◌≡◌, ◌≤◌, ◌+◌, ◌-◌, ◌<◌, take, drop, length, Some, None, IfSome, MatchOption, true, false};
ghost use Rattle.std.specs.Option.{SomeIff};
ghost use Rattle.modbus_frame.specs.Message.{IsRequest};
ghost use Rattle.inverter_sim.specs.Serve.{is_within, is_writable, are_whole, written, acknowledged, after_request, answer_to, after_pdu, reply_pdu};

use crate::place::RegisterPlace;
use crate::works::Works;
use modbus_frame::{
    Exception, Pdu, Request, Response, Words, exception_pdu, parse_request, response_pdu,
};
use std::marker::Model;

/// An inverter or a meter behind its registers.
///
/// A contract sees its registers from the base on, the place of each, what it works as, and how late it answers.
#[derive(Debug, Drop)]
pub(crate) struct Device {
    pub(crate) unit: u8,
    pub(crate) base: u16,
    pub(crate) works: Works,
    pub(crate) registers: Vec<u16>,
    pub(crate) places: Vec<RegisterPlace>,
    /// How many milliseconds late it answers.
    pub(crate) slow: u32,
}

impl Model for Device {
    ghost use Rattle.std.specs.Prelude.{◌≡◌, length};
    ghost use Rattle.inverter_sim.specs.State.{DeviceState};

    ghost Value = { DeviceState };

    ghost view = { λ d. record {
      unit = d.unit;
      base = d.base;
      works = d.works;
      registers = d.registers.items;
      places = d.places.items;
      slow = d.slow;
    } };

    ghost invariant = { λ d. length d.places.items ≡ length d.registers.items };
}

impl Device {
    pub(crate) fn unit(&self) -> u8
        ensures { result ≡ self.now.unit }
    {
        self.unit
    }

    /// Answers a PDU, and does what it asks for.
    pub(crate) fn serve(&mut self, pdu: &Pdu) -> Pdu
        ensures after { self.new ≡ after_pdu self.old pdu.now }
        ensures reply { result ≡ reply_pdu self.old pdu.now }
    {
        match parse_request(pdu) {
            Ok(request) => {
                let answer = self.answer(&request);
                response_pdu(&request, &answer)
            }
            Err(exception) => exception_pdu(pdu, exception),
        }
    }

    fn answer(&mut self, request: &Request) -> Result<Response, Exception>
        requires { IsRequest request.now }
        ensures after { self.new ≡ after_request self.old request.now }
        ensures answer { result ≡ answer_to self.old request.now }
    {
        match request {
            Request::Read { addr, qty } => self.read(*addr, *qty),
            Request::WriteOne { addr, value } => self.write(*addr, &[*value]),
            Request::WriteMany { addr, words } => self.write(*addr, words.as_slice()),
        }
    }

    // The place of these registers, where they are all the device's.
    fn offset_of(&self, addr: u16, len: usize) -> Option<usize>
        requires { len ≤ 125 }
        ensures found { MatchOption result (is_within self.now addr len ≡ false) (λ at. (is_within self.now addr len ≡ true)
            × (at ≡ addr - self.now.base) × (at + len ≤ length self.now.registers)) }
    {
        if addr < self.base {
            return None;
        }
        let at = (addr - self.base) as usize;
        if at + len <= self.registers.len() {
            Some(at)
        } else {
            None
        }
    }

    fn read(&self, addr: u16, qty: u16) -> Result<Response, Exception>
        requires { qty ≤ 125 }
        ensures { result ≡ answer_to self.now (Request.Read addr qty) }
    {
        let len = qty as usize;
        let Some(at) = self.offset_of(addr, len) else {
            return Err(Exception::ILLEGAL_DATA_ADDRESS);
        };
        let words = Words::from_slice(&self.registers[at..at + len]).unwrap();
        Ok(Response::Words(words))
    }

    fn write(&mut self, addr: u16, words: &[u16]) -> Result<Response, Exception>
        requires { length words.now ≤ 125 }
        ensures after { self.new ≡ written self.old addr words.now }
        ensures answer { result ≡ acknowledged self.old addr (length words.now) }
    {
        let Some(at) = self.offset_of(addr, words.len()) else {
            return Err(Exception::ILLEGAL_DATA_ADDRESS);
        };
        let end = at + words.len();
        if !are_whole(&self.places[at..end]) {
            return Err(Exception::ILLEGAL_DATA_ADDRESS);
        }
        self.registers[at..end].copy_from_slice(words);
        Ok(Response::Wrote)
    }
}

// Whether each register belongs to a point that clients may write, and that begins and ends among these registers.
fn are_whole(places: &[RegisterPlace]) -> bool
    ensures { result ≡ are_whole 0 places.now }
{
    let mut before: usize = 0;
    let mut rest = places;
    while let [place, behind @ ..] = rest {
        if !place.writable
            || place.before as usize > before
            || place.behind as usize > behind.len()
        {
            return false;
        }
        before += 1;
        rest = behind;
    }
    true
}
