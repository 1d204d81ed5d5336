//! What comes over a stream: of frames, of a request under way, of a client's session.
use crate::bytes::number;

/// A step of streams.
#[derive(Clone, Copy)]
pub(crate) enum StreamStep<'a> {
    /// A framer is fed a piece.
    Feed(&'a [&'a str]),
    /// It is fed a piece byte by byte.
    FeedBytes(&'a [&'a str]),
    /// It is fed so many bytes of a piece, and then the rest.
    FeedCut(usize, &'a [&'a str]),
    /// A frame is written: its transaction, its unit, its PDU.
    Frame(u16, u8, &'a [&'a str]),
    /// A PDU is read as a request.
    Request(&'a [&'a str]),
    /// A PDU is read as the reply to a request.
    Reply(&'a str, &'a [&'a str]),
    /// A request to a unit begins under a transaction.
    Ask(u16, u8, &'a [&'a str]),
    /// Bytes come for it.
    Hear(&'a [&'a str]),
    /// Its connection ends.
    HangUp,
    /// The bytes for two requests, of transactions 7 and 8, come in three pieces, cut at each two places.
    HearCut(&'a [&'a str]),
    /// A session begins, of whose answers this one is the last, or none for 0.
    Session(u8),
    /// It takes a piece, and has room for so many bytes to go out.
    Turn(usize, &'a [&'a str]),
    /// It takes a piece, of one frame at most.
    Take(&'a [&'a str]),
    /// So many bytes may go out.
    Put(usize),
    /// A stream comes in three pieces, cut at each two places.
    TurnCut(&'a [&'a str]),
    /// Whether a function writes, and how it is refused.
    Guard(&'a [&'a str]),
}

impl<'a> StreamStep<'a> {
    /// The step that words say; None where it is none of streams.
    pub(crate) fn read(name: &str, words: &'a [&'a str]) -> Option<StreamStep<'a>> {
        match (name, words) {
            ("feed", bytes) => Some(Self::Feed(bytes)),
            ("feed-bytes", bytes) => Some(Self::FeedBytes(bytes)),
            ("feed-cut", [n, bytes @ ..]) => Some(Self::FeedCut(number(n)?, bytes)),
            ("frame", [id, unit, pdu @ ..]) => Some(Self::Frame(number(id)?, number(unit)?, pdu)),
            ("request", pdu) => Some(Self::Request(pdu)),
            ("reply", [request, pdu @ ..]) => Some(Self::Reply(*request, pdu)),
            ("ask", [id, unit, pdu @ ..]) => Some(Self::Ask(number(id)?, number(unit)?, pdu)),
            ("hear", bytes) => Some(Self::Hear(bytes)),
            ("hang-up", []) => Some(Self::HangUp),
            ("hear-cut", bytes) => Some(Self::HearCut(bytes)),
            ("session", [last]) => Some(Self::Session(number(last)?)),
            ("turn", [room, bytes @ ..]) => Some(Self::Turn(number(room)?, bytes)),
            ("take", bytes) => Some(Self::Take(bytes)),
            ("put", [room]) => Some(Self::Put(number(room)?)),
            ("turn-cut", bytes) => Some(Self::TurnCut(bytes)),
            ("guard", pdu) => Some(Self::Guard(pdu)),
            _ => None,
        }
    }
}
