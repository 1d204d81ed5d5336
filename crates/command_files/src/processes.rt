//! Second processes: this program again, as a simulated plant or as a probe, and what a plant prints.
mod plant_lines;
mod second_process;

pub use plant_lines::{NoPort, told_port};
pub(crate) use second_process::start_probe;
pub use second_process::{start_plant, tell_no_port};
