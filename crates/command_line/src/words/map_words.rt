//! The words of the command `map`.
use crate::words::arguments::{definition_files, option, quiet_flag, site_file};
use crate::words::help;
use clap::builder::ValueParser;
use clap::{Arg, ArgAction, ArgMatches, Command};
use served_map::MapForm;
use std::alloc::{AllocError, Global};

/// The port of `serve` where none is said.
const USUAL_PORT: &str = "1502";

pub(crate) fn map_command<'a>(alloc: Global) -> Result<Command<'a>, AllocError> {
    Command::new(alloc, "map")
        .about("Prints each register that clients are served")
        .after_help(help::MAP)
        .arg(site_file(alloc))?
        .arg(form_flag(alloc, "csv", "as comma-separated values"))?
        .arg(form_flag(alloc, "html", "as a page of HTML"))?
        .arg(port_option(alloc))?
        .arg(quiet_flag(alloc))?
        .arg(definition_files(alloc))
}

fn form_flag<'a>(alloc: Global, name: &'a str, help: &'a str) -> Arg<'a> {
    Arg::new(alloc, name)
        .long(name)
        .action(ArgAction::SetTrue)
        .help(help)
}

fn port_option<'a>(alloc: Global) -> Arg<'a> {
    option(alloc, "port", "P", "the port that clients come to")
        .value_parser(ValueParser::unsigned(1, 65535))
        .default_value(USUAL_PORT)
}

/// How the table is written, or why the words don't say it.
pub(crate) fn map_form(matches: &ArgMatches<'_>) -> Result<MapForm, &'static str> {
    match (matches.get_flag("csv"), matches.get_flag("html")) {
        (false, false) => Ok(MapForm::Columns),
        (true, false) => Ok(MapForm::Csv),
        (false, true) => Ok(MapForm::Page),
        (true, true) => Err("'--csv' and '--html' can't be used together"),
    }
}
