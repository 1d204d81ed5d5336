//! The command line of the gateway's program: [`obey`] does what the words of a command line ask for, and
//! [`obey_command_line`] is all that a program's `main` calls. What they ask for on the texts of their files stands in
//! [`obey_on`], over sockets and second processes where it wants them, `serve` in [`run_service`], over the loop of
//! `service_loop`. What it does over files, sockets and second processes without that loop stands in the crate `command_files`,
//! what a command is on texts and links alone in `commands`.
#![tactic(auto)]

mod dispatch;
mod explain_run;
mod file_command;
mod map_run;
mod plant_server;
mod run_command;
mod runtimes;
mod serve;
mod sources;
mod survey;
mod words;

// what a program's `main` calls, and its parts
pub use dispatch::{obey, obey_command_line};
pub use words::command;
// what they ask of the runtime
pub use runtimes::{CommandRuntime, LoopRuntime};
// a command on the texts of its files
pub use file_command::{FileCommand, obey_on};
// a plant of simulated inverters, on a port
pub use plant_server::{PlantPort, simulate};
// a service on a site
pub use serve::{RefusedText, ServiceRun, run_service};
// a survey of a site
pub use survey::{SurveyRun, run_survey};
