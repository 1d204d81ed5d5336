//! Second processes: this program again, as a simulated plant or as a probe.
ghost use Rattle.command_files.specs.Printing.{Fails};

use crate::failing::tell_unreached;
use crate::processes::plant_lines::{NoPort, REFUSED};
use commands::write_lines;
use refusal_notes::{Notes, escaped};
use std::alloc::{AllocError, Global};
use std::io;
use std::io::Write;
use std::process::{Child, Command, Processes, Stdio};

/// Starts a plant by the program at a path. What it prints can be read.
pub fn start_plant<R: Processes>(
    rt: &R,
    alloc: Global,
    notes: &Notes<'_>,
    plant: &str,
    exe: &str,
) -> io::Result<Child<R::Started>> {
    let def_paths = notes.def_paths;
    if notes.quiet {
        let words = ["simulate", "--quiet", plant];
        return start(rt, alloc, exe, &words, def_paths);
    }
    start(rt, alloc, exe, &["simulate", plant], def_paths)
}

/// Starts a probe of a unit on a port. What it prints can be read.
pub(crate) fn start_probe<R: Processes>(
    rt: &R,
    alloc: Global,
    exe: &str,
    port: u16,
    unit: u8,
) -> io::Result<Child<R::Started>> {
    let port = port.to_string(alloc)?;
    let unit = unit.to_string(alloc)?;
    let words = ["probe", port.as_str(), "--unit", unit.as_str()];
    start(rt, alloc, exe, &words, &[])
}

/// Starts the program at a path with these words, and `--def` before each of the paths. What it prints can be read.
fn start<R: Processes>(
    rt: &R,
    alloc: Global,
    exe: &str,
    words: &[&str],
    def_paths: &[&str],
) -> io::Result<Child<R::Started>> {
    let mut command = Command::new(alloc, exe)?;
    spawn(rt, &mut command, words, def_paths)
}

fn spawn<R: Processes>(
    rt: &R,
    command: &mut Command,
    words: &[&str],
    def_paths: &[&str],
) -> io::Result<Child<R::Started>> {
    push_words(command, words)?;
    push_def_paths(command, def_paths)?;
    command.stdin(Stdio::null());
    command.stdout(Stdio::piped());
    command.spawn(rt)
}

fn push_words(command: &mut Command, words: &[&str]) -> io::Result<()> {
    for word in words {
        command.arg(*word)?;
    }
    Ok(())
}

fn push_def_paths(command: &mut Command, paths: &[&str]) -> io::Result<()> {
    for path in paths {
        command.arg("--def")?;
        command.arg(*path)?;
    }
    Ok(())
}

/// Tells why a plant that was started says no port, and gives the status.
pub fn tell_no_port<R: Eprint + AllocGlobal, W: Write>(
    rt: &R,
    alloc: Global,
    notes: &Notes<'_>,
    exe: &str,
    why: &NoPort,
    out: &mut W,
) -> u8
    ensures { Fails (W.contents out.old) (W.contents out.new) result }
{
    match why {
        NoPort::Unread(kind) => tell_unreached(rt, alloc, notes, *kind, out),
        NoPort::Line(line) => tell_other_line(rt, alloc, notes, exe, line.as_slice(), out),
    }
}

/// Prints the first line of a plant that doesn't listen. Where it is no refusal, the program that was started is another
/// one, which is told on standard error.
fn tell_other_line<R: Eprint, W: Write>(
    rt: &R,
    alloc: Global,
    notes: &Notes<'_>,
    exe: &str,
    line: &[u8],
    out: &mut W,
) -> u8
    ensures { Fails (W.contents out.old) (W.contents out.new) result }
{
    if !notes.quiet && !line.starts_with(REFUSED) && !line.starts_with(b"link: ") {
        if let Ok(text) = no_sunsite(alloc, exe) {
            let _ = rt.eprint(text.as_str());
        }
    }
    write_lines(out, line, 1)
}

fn no_sunsite(alloc: Global, exe: &str) -> Result<String, AllocError> {
    let path = escaped(alloc, exe)?;
    let text = format!(in alloc; "{path}: no sunsite: its first line isn't 'listening PORT'\n")?;
    Ok(text)
}
