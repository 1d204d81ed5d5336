//! Where a command line names standard input, PATH `-`, as a file.
use clap::ArgMatches;
use command_files::STANDARD_INPUT;

/// Why the files that a command line names can't be had, where standard input is among them: it is read once, and a
/// second process doesn't get it.
pub(crate) fn misuse(command: &str, matches: &ArgMatches<'_>) -> Option<&'static str> {
    let written = [
        file(matches, "state"),
        file(matches, "status-file"),
        file(matches, "trace"),
        file(matches, "report"),
    ];
    if inputs(&written) > 0 {
        return Some("'-' can't be a file that is written");
    }
    if command == "serve" && matches.get_flag("reload") && inputs(&[file(matches, "PROGRAM")]) > 0 {
        return Some("'-' can't be the program of '--reload': standard input is read once");
    }
    let plant = file(matches, "plant");
    let defs = matches.get_strs("def").unwrap_or(&[]);
    let handed_on = inputs(&[plant]).saturating_add(inputs(defs));
    let hands_on = command == "run" || command == "serve" && !plant.is_empty();
    if hands_on && handed_on > 0 {
        return Some(
            "'-' can't be the plant or a definition of a run, which a second process reads too",
        );
    }
    let files = [
        file(matches, "SITE"),
        file(matches, "PROGRAM"),
        file(matches, "PLANT"),
        file(matches, "sets"),
        file(matches, "traced"),
    ];
    if inputs(&files).saturating_add(handed_on) > 1 {
        return Some("'-' can be one file alone: standard input is read once");
    }
    None
}

/// The path that is given for a file, or that of no file.
fn file<'a>(matches: &ArgMatches<'a>, name: &str) -> &'a str {
    matches.get_str(name).unwrap_or("")
}

/// How many of the paths are standard input.
fn inputs(paths: &[&str]) -> usize {
    paths.iter().filter(|path| **path == STANDARD_INPUT).count()
}
