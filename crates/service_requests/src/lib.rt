//! What a gateway does for its connections, where bytes come in pieces and requests to several devices are under way at
//! once: bytes, outcomes and events are handed in and taken out. It knows of no socket and no clock.
#![tactic(auto)]

mod guard;
mod identity;
pub mod laws;
mod pending_request;
mod read_answer;
mod replay;
mod request_end;
mod search;
mod session;
mod task;
mod turn;

// one request on one connection
pub use pending_request::{BytesTaken, PendingRequest};
pub use request_end::RequestEnd;
// the search for a device's map, and which device it is
pub use identity::{COMMON_WORDS, Identity};
pub use search::{CommonRead, Search, SearchStep};
// the requests of one scan, over all connections
pub use task::{Task, TaskMark, Tasks};
// clients
pub use guard::{is_write, refusal};
pub use session::{PieceTaken, Session};
pub use turn::Turned;
