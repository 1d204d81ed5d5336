//! The request that is under way on a line.
ghost use Rattle.std.specs.Prelude.{◌≡◌};
ghost use Rattle.modbus_frame.specs.Message.{address_of};
ghost use Rattle.service_parts.specs.Requests.{words_of};

use modbus_frame::{Request, Words};

/// The request that is under way.
#[derive(Drop)]
pub struct Asked {
    pub device: usize,
    pub aim: Aim,
    /// The address of the first register that it is about.
    pub address: u16,
    /// The words that it writes; none where it reads.
    pub words: Words,
    /// The number of the connection over which it is asked.
    pub number: u64,
    /// When it began, in milliseconds.
    pub since: u64,
    /// Until when its answer is waited for.
    pub until: u64,
}

/// What a request is made for.
#[derive(Clone, Copy, PartialEq, Eq)]
pub enum Aim {
    /// A map.
    Map,
    /// The wanted block of this number.
    Block(usize),
    /// The output of this number.
    Output(usize),
}

/// The address of the first register that a request is about.
pub fn first_register(request: &Request) -> u16
    ensures { result ≡ address_of request.now }
{
    match request {
        Request::Read { addr, .. }
        | Request::WriteOne { addr, .. }
        | Request::WriteMany { addr, .. } => *addr,
    }
}

/// The words that a request writes; none where it reads.
pub fn words_of(request: &Request) -> Words
    ensures { result ≡ words_of request.now }
{
    match request {
        Request::Read { .. } => Words::new(),
        Request::WriteOne { value, .. } => Words::from_few(&[*value]),
        Request::WriteMany { words, .. } => Words::from_few(words.as_slice()),
    }
}
