//! The words of the command `survey`.
use crate::words::arguments::{definition_files, option, program_word, quiet_flag, site_file};
use crate::words::help;
use crate::words::serve_words::{NO_PORT, devices_option};
use clap::builder::ValueParser;
use clap::{Arg, ArgMatches, Command};
use service_texts::{DeviceSource, devices_of};
use std::alloc::{AllocError, Global};

pub(crate) fn survey_command<'a>(alloc: Global) -> Result<Command<'a>, AllocError> {
    Command::new(alloc, "survey")
        .about("Looks at the devices of a site before its first start, and writes nothing")
        .after_help(help::SURVEY)
        .arg(site_file(alloc))?
        .arg(program_word(alloc))?
        .arg(devices_option(alloc))?
        .arg(every_option(alloc))?
        .arg(timeout_option(alloc))?
        .arg(quiet_flag(alloc))?
        .arg(definition_files(alloc))
}

fn timeout_option<'a>(alloc: Global) -> Arg<'a> {
    option(
        alloc,
        "timeout",
        "MS",
        "the longest wait for a connection and for a device's reply",
    )
    .value_parser(ValueParser::unsigned(1, 60_000))
    .default_value("1000")
}

fn every_option<'a>(alloc: Global) -> Arg<'a> {
    option(
        alloc,
        "every",
        "MS",
        "the period of serve that the devices are judged for",
    )
    .value_parser(ValueParser::unsigned(50, 3_600_000))
    .default_value("1000")
}

/// Where the devices are, or why the words don't say it.
pub(crate) fn survey_devices<'a>(
    matches: &ArgMatches<'a>,
) -> Result<DeviceSource<'a>, &'static str> {
    match devices_of(matches.get_str("devices"), None) {
        Ok(devices) => Ok(devices),
        Err(_) => Err(NO_PORT),
    }
}
