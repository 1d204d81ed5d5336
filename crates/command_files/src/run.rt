//! The command `run`: a plant, scans of it, and a probe of the gateway after them.
mod plant_run;
mod run_files;

pub use plant_run::{PlantRun, run_plant, run_watched};
pub use run_files::{RunPaths, run_into_files};
