//! Modbus over TCP: frames, the messages in them, and links that carry them.
#![tactic(auto)]

mod exchange;
mod fault;
mod frame;
mod framer;
pub mod laws;
mod link;
mod mem_link;
mod message;
mod pdu;
mod reply;
mod request;
mod response;
mod serving;
mod stream_link;
mod words;

// frames in a stream
pub use fault::FrameFault;
pub use frame::{Frame, write_frame};
pub use framer::{Fed, Framer};
// the messages in them
pub use message::{Exception, ReplyFault, Request, Response};
pub use pdu::Pdu;
pub use request::{parse_request, request_pdu};
pub use response::{exception_pdu, parse_response, response_pdu};
pub use words::Words;
// links that carry them
pub use exchange::{FrameReader, send};
pub use link::{Down, Link, LinkFault};
pub use mem_link::MemLink;
pub use stream_link::StreamLink;
// a served link
pub use reply::FrameReply;
pub use serving::{MOST_CALLS, Responder, serve};
