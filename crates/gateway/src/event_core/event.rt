//! What happens to a gateway, and what it answers.
use modbus_frame::Pdu;
use site_model::{Want, Words};

/// What happens to a gateway. Events of all devices and clients come in one list.
#[derive(Debug, PartialEq, Eq, Drop)]
pub enum Event {
    /// A device answered the registers of one of its models, from the model's ID on.
    Block(Want, Words),
    /// A device didn't answer for one of its models.
    Lost(Want),
    /// So many milliseconds went by since what was told before.
    Time(u32),
    /// The program is to run once.
    Scan,
    /// A client of the gateway sent a request.
    Client(Pdu),
}

/// What a gateway does on an event.
#[derive(Debug, PartialEq, Eq, Drop)]
pub enum Answer {
    /// Nothing.
    None,
    /// So many points of devices may have to be written: `Core::write` gives each.
    Writes(usize),
    /// This goes back to the client.
    Reply(Pdu),
}
