//! What the words of a command line ask for on the texts of files.
use crate::file_command::FileCommand;
use crate::plant_server::PlantPort;
use clap::ArgMatches;
use command_files::{ProbeAddress, ProbeRun, STANDARD_INPUT};
use commands::{RunPace, USUAL_PERIOD};

/// What the words after a command's name say, where it is one of those on the texts of files.
pub(crate) fn file_command<'a>(name: &str, matches: &ArgMatches<'a>) -> Option<FileCommand<'a>> {
    match name {
        "check" => Some(FileCommand::Check),
        "explain" => Some(FileCommand::Explain {
            listing: matches.get_flag("listing"),
        }),
        "simulate" => Some(FileCommand::Simulate {
            at: plant_port(matches),
        }),
        "run" => Some(FileCommand::Run {
            plant: matches.get_str("plant").unwrap_or(STANDARD_INPUT),
            pace: RunPace {
                scans: matches.get_one("scans").unwrap_or(1),
                every: matches.get_one("every").unwrap_or(USUAL_PERIOD),
                asked: matches.get_str("sets").is_some(),
            },
            exe: matches.get_str("exe"),
        }),
        "probe" => probe_run(matches),
        _ => None,
    }
}

/// Where `simulate` serves, and for whom.
fn plant_port(matches: &ArgMatches<'_>) -> PlantPort {
    PlantPort {
        port: matches.get_one("port").unwrap_or(0),
        connections: matches.get_one("connections"),
    }
}

/// What `probe` asks for; none where the word is no port and no address.
fn probe_run<'a>(matches: &ArgMatches<'a>) -> Option<FileCommand<'a>> {
    let run = ProbeRun {
        address: probe_address(matches)?,
        unit: matches.get_one("unit").unwrap_or(1),
        timeout: matches.get_one("timeout"),
    };
    Some(FileCommand::Probe { run })
}

/// Where a device is probed; none where the word is no port and no address.
pub(crate) fn probe_address<'a>(matches: &ArgMatches<'a>) -> Option<ProbeAddress<'a>> {
    ProbeAddress::of(matches.get_str("PORT").unwrap_or(""))
}
