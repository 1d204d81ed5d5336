//! What the loop of a service meets of the system: streams whose reads and writes don't wait, names of hosts that are looked up
//! without a wait, and files that stay.
#![tactic(auto)]

mod answer;
mod connection;
mod handing;
mod lasting;
mod lookup;
mod new_file;
mod piece;
mod target;

// a stream, and the bytes that came over it and weren't used
pub use connection::Connection;
pub use handing::{Giver, Taker};
// where a text of the form `HOST:PORT` leads
pub use target::{Target, target_of};
// a name that is being looked up by a second process, whose answer comes over a socket
pub use answer::address_in;
pub use lookup::{Lookup, Progress};
// a file that stays, also where the machine loses its power
pub use lasting::{Lasting, SystemFile};
pub use new_file::WrittenDown;
