//! The commands of the gateway's program, each on texts and links that the caller hands in: a [`trial`] scan of a
//! program by itself, [`check`], which judges a program for a site, [`explain`], which prints it with what is known before
//! each instruction, [`plant_of`], which gives the plant that `simulate` serves, the [`scans`] of a program on a site, and
//! [`probe`], which prints the points of a device by [`models_told`].
#![tactic(auto)]

mod accepted;
mod clients;
pub mod definitions;
mod explained;
mod given;
mod input;
mod input_fault;
pub mod laws;
mod model_texts;
mod number;
mod obeyed;
mod obeyed_over;
mod outcome;
mod pace;
mod plant;
mod program_table;
mod refusal;
mod report;
mod scan;
mod scan_watch;
mod site_scans;
mod trial_scan;
mod unit_points;
mod verdict;
mod writing;

// a program by itself
pub use trial_scan::{trial, try_input};
// a program and a site
pub use accepted::{Accepted, accept, accept_program};
pub use explained::explain;
pub use program_table::ProgramTable;
pub use verdict::{Judged, check, judge};
// a plant of simulated inverters
pub use plant::{plant_of, plant_told};
// a program on a site
pub use scan_watch::{ScanWatch, Unwatched};
pub use site_scans::{DEPTH, scans, scans_noting};

// how many scans, and how far apart
pub use clients::{ClientTurn, MOST_TURNS, ScanClients};
pub use pace::{RunPace, USUAL_PERIOD};
// a device
pub use model_texts::models_told;
pub use unit_points::probe;
// each of these as a command, with a clause for all of them
pub use obeyed::{Obeyed, TextCommand, obey};
pub use obeyed_over::{LinkCommand, ObeyedOver, obey_over};
// why one refuses
pub use input_fault::{InputFault, RefusedInput};
pub use refusal::CommandRefusal;
// what is printed, and its status
pub use outcome::{
    CommandOutcome, FAILED_LINK, tell_no_memory, tell_unlinked, tell_unusable, write_lines,
};
pub use report::{listening, no_core};
