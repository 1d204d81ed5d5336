//! Links over sockets: the one that a run watches, and the one over which a device is probed.
mod link_cause;
mod probe_link;
mod socket;
mod watched_link;

pub use link_cause::cause_of_link;
pub use probe_link::{ProbeAddress, ProbeRun, probe_over};
pub(crate) use socket::SocketLink;
pub use socket::{link_over, loopback};
pub use watched_link::WatchedLink;
