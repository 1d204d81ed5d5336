//! What commands do over files, sockets and second processes, without the loop of a service: [`run_plant`] scans a plant in a
//! second process, [`probe_over`] probes a device, and [`trial_of`] tries what a reader gives. What a command is on texts and
//! links alone stands in the crate `commands`.
#![tactic(auto)]

mod explain_table;
mod failing;
mod files;
mod links;
mod page_texts;
mod processes;
mod run;
mod run_watch;
mod runtimes;
mod trial_input;
mod warnings;

pub use explain_table::ExplainTable;
pub use failing::{no_start, tell_file, tell_lost, tell_unserved};
pub use files::{
    STANDARD_INPUT, SourceFault, WriteFault, definitions_in, read_again, read_file, read_kept,
    read_kept_program, warn_of_none,
};
pub use links::{
    ProbeAddress, ProbeRun, WatchedLink, cause_of_link, link_over, loopback, probe_over,
};
pub use page_texts::{SitePart, program_text, site_text, tag_units};
pub use processes::{NoPort, start_plant, tell_no_port, told_port};
pub use run::{PlantRun, RunPaths, run_into_files, run_plant, run_watched};
pub use run_watch::{
    MissingWatch, Recorder, RunLook, RunWatch, SetPlayer, SetsFault, Setting, Trace, TraceFault,
    TracedSpans, UnwrittenWatch, read_settings, tell_late,
};
pub use runtimes::RunRuntime;
pub use trial_input::trial_of;
pub use warnings::{
    device_fault, variables_of, warn_beside, warn_of_names, warn_of_short_lapses, warn_of_site,
    warn_on_site, why_no_hours, why_no_identities, why_no_name, why_no_powers, why_no_read_back,
    why_unretained,
};
