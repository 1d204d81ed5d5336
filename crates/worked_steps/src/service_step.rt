//! What happens to a service, or is looked at.
use crate::bytes::number;
use crate::devices::Manner;
use modbus_frame::Exception;

/// A step of a service; links, devices, outputs, tags and clients' places are told by their numbers.
#[derive(Clone, Copy)]
pub(crate) enum ServiceStep<'a> {
    /// A link comes up.
    Up(usize),
    /// A link goes down.
    Down(usize),
    /// Time passes to this one, from wake to wake; all requests are answered at once.
    Pass(u64),
    /// The time is this, and nothing is answered.
    Time(u64),
    /// One request of each link is answered.
    AnswerOne,
    /// All requests are answered.
    Answer,
    /// The reply to the link's request is kept back.
    KeepBack(usize),
    /// The reply that was kept back comes.
    GiveBack(usize),
    /// The link's device sends so many bytes of its reply, and no more.
    CutOff(usize, usize),
    /// These bytes come over a link, unasked.
    Comes(usize, &'a [&'a str]),
    /// Replies come in pieces of so many bytes.
    Pieces(usize),
    /// A device answers so from now on.
    Becomes(usize, Manner),
    /// The plant of a text is at the end of a link from now on.
    Rebuilt(usize, &'a str),
    /// A unit of a link's plant is asked by itself.
    Holds(usize, u8, &'a [&'a str]),
    /// A client that may write, or may not, comes.
    ClientComes(bool),
    /// A client sends bytes.
    Says(usize, &'a [&'a str]),
    /// A client sends one request, and gets the reply at once.
    Serves(usize, &'a [&'a str]),
    /// The requests of a link are answered until there is none.
    AnswerLink(usize),
    /// So many bytes went out to a client.
    Took(usize, usize),
    /// A client is gone.
    Leaves(usize),
    /// A tag is set to a number as before a restart.
    Restores(usize, i64),
    /// So many milliseconds went by since what was set so far.
    Elapses(u32),
    /// The program of a text is put in for the one that runs.
    Adopts(&'a str),
    /// What is to be sent over a link, and whether it is to be dialled or hung up.
    Link(usize),
    /// How a device stands.
    Device(usize),
    /// The first register of the serial number that a device said last.
    Serial(usize),
    /// What became of an output.
    Output(usize),
    /// What is to be sent to a client, how many frames were answered, and whether it is to be closed.
    Client(usize),
    /// What clients set a tag to.
    Setting(usize),
    /// How many scans were done, and when something is to be done next.
    Counts,
}

impl<'a> ServiceStep<'a> {
    /// The step that words say; None where it is none of a service.
    pub(crate) fn read(name: &str, words: &'a [&'a str]) -> Option<ServiceStep<'a>> {
        match (name, words) {
            ("up", [link]) => Some(Self::Up(number(link)?)),
            ("down", [link]) => Some(Self::Down(number(link)?)),
            ("pass", [until]) => Some(Self::Pass(number(until)?)),
            ("time", [now]) => Some(Self::Time(number(now)?)),
            ("answer-one", []) => Some(Self::AnswerOne),
            ("answer", []) => Some(Self::Answer),
            ("keep-back", [link]) => Some(Self::KeepBack(number(link)?)),
            ("give-back", [link]) => Some(Self::GiveBack(number(link)?)),
            ("cut-off", [link, n]) => Some(Self::CutOff(number(link)?, number(n)?)),
            ("comes", [link, bytes @ ..]) => Some(Self::Comes(number(link)?, bytes)),
            ("pieces", [size]) => Some(Self::Pieces(number(size)?)),
            ("well", [device]) => Some(Self::Becomes(number(device)?, Manner::Well)),
            ("silent", [device]) => Some(Self::Becomes(number(device)?, Manner::Silent)),
            ("garbage", [device]) => Some(Self::Becomes(number(device)?, Manner::Garbage)),
            ("refusing", [device, code]) => Some(Self::Becomes(
                number(device)?,
                Manner::Refusing(Exception(number(code)?)),
            )),
            ("rebuilt", [link, text]) => Some(Self::Rebuilt(number(link)?, *text)),
            ("holds", [link, unit, pdu @ ..]) => Some(Self::Holds(
                number(link)?,
                number(unit)?,
                pdu,
            )),
            _ => ServiceStep::of_clients(name, words),
        }
    }

    /// The same of clients, and of what is looked at.
    fn of_clients(name: &str, words: &'a [&'a str]) -> Option<ServiceStep<'a>> {
        match (name, words) {
            ("client-comes", ["writing"]) => Some(Self::ClientComes(true)),
            ("client-comes", ["reading"]) => Some(Self::ClientComes(false)),
            ("says", [place, bytes @ ..]) => Some(Self::Says(number(place)?, bytes)),
            ("serves", [place, bytes @ ..]) => Some(Self::Serves(number(place)?, bytes)),
            ("answer-link", [link]) => Some(Self::AnswerLink(number(link)?)),
            ("took", [place, n]) => Some(Self::Took(number(place)?, number(n)?)),
            ("leaves", [place]) => Some(Self::Leaves(number(place)?)),
            ("restores", [tag, value]) => Some(Self::Restores(number(tag)?, number(value)?)),
            ("link", [link]) => Some(Self::Link(number(link)?)),
            ("elapses", [elapsed]) => Some(Self::Elapses(number(elapsed)?)),
            ("adopts", [program]) => Some(Self::Adopts(*program)),
            ("device", [device]) => Some(Self::Device(number(device)?)),
            ("serial", [device]) => Some(Self::Serial(number(device)?)),
            ("output", [output]) => Some(Self::Output(number(output)?)),
            ("client", [place]) => Some(Self::Client(number(place)?)),
            ("setting", [tag]) => Some(Self::Setting(number(tag)?)),
            ("counts", []) => Some(Self::Counts),
            _ => None,
        }
    }
}
