//! The gateway as a service over sockets: one thread, and one wait a turn. What is done is decided by `service`;
//! here connections are made and closed as it says, bytes are moved, and lines written of what it tells. A simulated plant
//! is served in the same way. What is read and written as text stands in `service_texts`.
#![tactic(auto)]

mod alarm_watch;
mod client;
mod client_record;
mod client_watch;
mod clients;
mod device_socket;
mod device_sockets;
mod door;
mod hour_record;
mod keeping;
mod kept_files;
mod line_writer;
mod link_bytes;
mod members;
mod nights;
mod paces;
mod page_sockets;
mod page_texts;
mod plant_client;
mod plant_door;
mod program_copy;
mod program_watch;
mod replacing;
mod restoring;
mod room;
mod round_time;
mod scan_steps;
mod serve_loop;
mod serving;
mod socket_state;
mod sockets;
mod state_fault;
mod state_file;
mod state_lock;
mod status;
mod status_alarms;
mod status_devices;
mod status_file;
mod status_served;
mod status_tags;
mod survey_turns;
mod taken_outputs;
mod telling;
mod tokens;
mod turns;
mod wall_clock;

// what is kept over a restart
pub use keeping::{Keeping, KeptState};
// another program in place of the one that runs
pub use program_watch::{Looked, OneProgram, ProgramRefusal, ProgramWatch};
// the service itself
pub use hour_record::quantities_of;
pub use serving::{End, PageWindow, Serving};
pub use state_fault::StateFault;
pub use turns::serve_site;
pub use wall_clock::seconds_of_day;
// a survey of a site
pub use survey_turns::{survey_limits, survey_site};
// a simulated plant behind a port, for several connections at once
pub use plant_door::PlantDoor;
