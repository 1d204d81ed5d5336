//! Texts on why a link failed.
use crate::explained::Explained;
use modbus_frame::{FrameFault, LinkFault};

impl Explained for LinkFault {
    fn meaning(self) -> &'static str {
        match self {
            LinkFault::Read => "there is no connection, or reading from it failed",
            LinkFault::Write => "writing to the connection failed",
            LinkFault::Frame(FrameFault::BadProtocol) => {
                "a frame came whose protocol number, in its third and fourth byte, isn't 0"
            }
            LinkFault::Frame(FrameFault::BadLength) => {
                "a frame came whose length, in its fifth and sixth byte, lies outside 2..254"
            }
            LinkFault::End => "the other side closed before a reply, or inside a frame",
            LinkFault::Turns => "one call used 1,000,000 reads and writes of the connection",
            LinkFault::OutOfMemory => "memory was refused",
        }
    }

    fn help(self) -> &'static str {
        match self {
            LinkFault::Read => {
                "look whether the other side listens there; simulate serves one connection and then ends, so start it again"
            }
            LinkFault::Write => "the other side closed: start it again",
            LinkFault::Frame(_) => {
                "the other side doesn't speak Modbus TCP: look at its port and at what answers there"
            }
            LinkFault::End => "start the other side again, and look why it closed",
            LinkFault::Turns => "the other side sends pieces without end: it isn't usable",
            LinkFault::OutOfMemory => "give the program more memory, and run the command again",
        }
    }
}
