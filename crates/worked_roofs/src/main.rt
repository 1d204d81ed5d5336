//! Sites told in some lines each, and how soon and how often a service writes to their units. A service beside its
//! devices runs in time that goes by as fast as it is computed. Standard input has the cases, standard output gets their
//! figures. A line that may not stand where it does ends the program: standard error has its place, and the status is 70.
//!
//! A case begins with a headline and goes on with its site and its links. All times are milliseconds; what isn't told is as
//! it stands here. Lines that begin with `#` are remarks.
//!
//! ```text
//! === NAME
//! site period 1000 timeout 1000 rounds 60 settle 0 seed 1 each 0
//! link KIND UNITS reads 2 outputs 1 blocks 1000 idle 0 reply 30 jitter 0 write 100
//! units FIRST..LAST reply 600 silent 20000..60000
//! ```
//!
//! - `site`: gaps between writes count from `settle` on; with `each 1` each span in which a unit lives has a line.
//! - `link`: a KIND of server with so many UNITS, of which the first is 1. `par`: a logger that answers for each unit by
//!   itself; `exc`: one that answers exception 0B at once for a silent unit; `ser`: a gateway that takes one request after
//!   another, and that a silent unit blocks for `blocks`; `ser0b`: the same, and then exception 0B comes; `one`: a device
//!   alone. `reads` (1 or 2) and `outputs` (1 or 2) are those of each unit. After `idle` without a byte, where it isn't 0,
//!   the other end closes the connection. `down FROM..TO` is a time without a connection; one that stands ends then.
//! - `units`: what differs at units of the link above, `FIRST..LAST/2` for each second one. `reply`: how long a reply takes; `jitter`: by how many percent it may
//!   be shorter or longer, and from 50 on one of a hundred takes three times as long; `write`: how long the reply to a write
//!   takes, in percent of that; `silent FROM..TO`: when it answers nothing (`FROM..`: for ever). A line of a link may have
//!   these keys too, for all its units. No reply takes longer than 95 percent of `timeout`.
//!
//! Of each case come `site`: the scans, by how much the time between two of them differs from the period at most (`off`),
//! requests, requests to a unit whose earlier one was neither answered nor over (`twice`), how often the service wanted to
//! be woken at a time that was over (`stuck`), losses of units that had lived for `timeout`, and losses by links that are
//! down; and for each `link`: the longest time to the first write of a unit (`first`), between two writes of a unit that
//! lives all the time (`gap`), from a unit's return to its first write (`back`), from a scan to the first write that goes
//! out (`lag`), and in how many spans of more than 30 s in which a unit lives it was never written. A unit is written when
//! the reply to the write of its last output comes.
#![tactic(auto)]

mod building;
mod dice;
mod far_end;
mod fault;
mod life;
mod page;
mod roof;
mod roof_reader;
mod run;
mod span;

use crate::building::definitions;
use crate::fault::Played;
use crate::page::write_figures;
use crate::roof_reader::RoofReader;
use crate::run::Run;
use std::io;
use std::io::BufReader;
use std::process::ExitCode;

/// The status where a text of cases isn't one.
const NO_CASES: u8 = 70;

fn main(rt: HostRuntime) -> ExitCode {
    match play(&rt) {
        Ok(()) => ExitCode::from(0),
        Err(_) => ExitCode::from(NO_CASES),
    }
}

/// Plays the cases of standard input.
fn play(rt: &HostRuntime) -> Played<()> {
    let text = io::read_to_string(rt.alloc(), BufReader::new(rt.alloc(), rt.reader())?)?;
    let lines: Vec<&str> = text.lines().collect(rt.alloc())?;
    let mut reader = RoofReader::new(rt.alloc());
    for (i, line) in lines.iter().enumerate() {
        if let Err(fault) = reader.take(*line) {
            let number = i.saturating_add(1);
            eprintln!(rt; "line {number}: {fault}")?;
            return Err(fault);
        }
    }
    play_all(rt, &reader)
}

fn play_all(rt: &HostRuntime, reader: &RoofReader<'_>) -> Played<()> {
    let alloc = rt.alloc();
    let models = definitions(alloc)?;
    for roof in reader.roofs() {
        let mut run = Run::new(alloc, roof, &models)?;
        run.run()?;
        write_figures(&mut io::writer(rt), roof, &run)?;
    }
    Ok(())
}
