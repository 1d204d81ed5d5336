//! Cases of the lower crates as texts: the files of data/ say step by step what happens to a service, a core, a plant, a
//! stream or a device's registers, the file stdout what comes of it. The words of the program name those files. A step
//! that isn't one ends it: standard error has its place, and the status is 70.
#![tactic(auto)]

mod benches;
mod bytes;
mod case_file;
mod core_bench;
mod counter;
mod course;
mod devices;
mod fault;
mod link_bench;
mod page;
mod plant_bench;
mod register_bench;
mod service_bench;
mod service_step;
mod sites;
mod stream_bench;
mod stream_step;
mod text_bench;
mod texts;
mod wire;

use crate::case_file::CaseFile;
use crate::fault::{Shown, StepFault};
use std::process::ExitCode;
use std::{env, fs, io};

/// The status where a file of cases isn't one.
const NO_CASES: u8 = 70;

fn main(rt: HostRuntime) -> ExitCode {
    match show_files(&rt) {
        Ok(()) => ExitCode::from(0),
        Err(_) => ExitCode::from(NO_CASES),
    }
}

fn show_files(rt: &HostRuntime) -> Shown<()> {
    let words: Vec<String> = env::args(rt)?.collect(rt.alloc())?;
    for file in words.iter().skip(1) {
        match fs::read_to_string(rt, file.as_str()) {
            Ok(text) => show_file(rt, file.as_str(), text.as_str())?,
            Err(fault) => {
                eprintln!(rt; "{file}: {fault}")?;
                return Err(StepFault::from(fault));
            }
        }
    }
    Ok(())
}

/// Shows the cases of a file; where one of its lines can't be taken, standard error has its place.
fn show_file(rt: &HostRuntime, name: &str, text: &str) -> Shown<()> {
    let lines: Vec<&str> = text.lines().collect(rt.alloc())?;
    let mut file = CaseFile::new(rt.alloc(), lines.as_slice());
    let shown = file.show(&mut io::writer(rt));
    if let Err(fault) = &shown {
        let line = file.line();
        eprintln!(rt; "{name}:{line}: {fault}")?;
    }
    shown
}
