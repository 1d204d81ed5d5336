//! The gateway of a site: its core over events, and a poller that asks the devices over a link, one request at a time.
#![tactic(auto)]

mod event_core;
pub mod laws;
mod poller;
mod served;

// the core: what happens to a site, one event after another
pub use event_core::{Answer, Core, CoreFault, DEPTH, Event, MOST_ELAPSED, has_lapsed};
// the devices: what is asked of them over a link, and whole scans
pub use poller::{
    Call, MOST_DROPPED, Outcome, Poller, Report, WriteOrder, event_by, is_reply, read_of,
    request_frame, run_scan, write_of,
};
// the clients, and what is shown to them of readings
pub use event_core::serve_client;
pub use served::{own_value, partial_total_of, served_factor, total_of};
// the points of the gateway's own map
pub use event_core::setting_of;
pub use served::{OwnPoint, PointSource, own_point, own_points};
