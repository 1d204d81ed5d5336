//! The figures of a case, line by line.
use crate::fault::Played;
use crate::life::Life;
use crate::roof::Roof;
use crate::run::{NearEnd, Run};
use std::fmt;
use std::io::Write;

/// How long a unit lives before it counts that it was never written, in milliseconds.
const LONG: u64 = 30_000;

/// A figure, or `-` where there is none.
#[derive(Clone, Copy)]
struct Figure(Option<u64>);

/// The largest figures of a link's units.
#[derive(Clone, Copy)]
struct Largest {
    end: u64,
    first: Option<u64>,
    gap: Option<u64>,
    back: Option<u64>,
    never: u64,
}

impl fmt::Display for Figure {
    fn fmt<W: fmt::Write>(&self, f: &mut fmt::Formatter<W>) -> fmt::Result {
        match self.0 {
            Some(number) => write!(f, "{number}"),
            None => f.write_str("-"),
        }
    }
}

impl Largest {
    fn add(&mut self, life: &Life) {
        let lasts = life.span.to.saturating_sub(life.span.from);
        if life.span.from == 0 {
            self.first = self.first.max(life.first);
        } else {
            self.back = self.back.max(life.first);
        }
        if life.span.from == 0 && life.span.to >= self.end {
            self.gap = self.gap.max(Some(life.gap));
        }
        if life.first.is_none() && lasts > LONG {
            self.never = self.never.saturating_add(1);
        }
    }
}

/// Writes the figures of a site: those of all, of each link, and where the case says so of each span in which a unit lives.
pub(crate) fn write_figures<W: Write>(out: &mut W, roof: &Roof<'_>, run: &Run<'_>) -> Played<()> {
    let counts = run.counts;
    writeln!(out, "=== {}", roof.name)?;
    write!(out, "site scans {} off {}", counts.scans, counts.off)?;
    write!(out, " requests {} twice {}", counts.requests, counts.twice)?;
    write!(out, " stuck {}", counts.stuck)?;
    writeln!(out, " lost {} down {}", counts.lost, counts.down)?;
    for (link, near) in run.links.iter().enumerate() {
        write_link(out, roof, link, near)?;
    }
    Ok(())
}

fn write_link<W: Write>(out: &mut W, roof: &Roof<'_>, link: usize, near: &NearEnd) -> Played<()> {
    let number = link.saturating_add(1);
    let word = roof.links.get(link).map_or("", |text| text.kind.word());
    let all = most_of(near, roof.end());
    let first = Figure(all.first);
    let gap = Figure(all.gap);
    let back = Figure(all.back);
    write!(
        out,
        "link {number} {word} first {first} gap {gap} back {back}"
    )?;
    writeln!(out, " lag {} never {}", near.lag, all.never)?;
    if roof.each > 0 {
        write_units(out, number, near, roof.end())?;
    }
    Ok(())
}

fn most_of(near: &NearEnd, end: u64) -> Largest {
    let mut all = Largest {
        end,
        first: None,
        gap: None,
        back: None,
        never: 0,
    };
    for lives in near.lives.iter() {
        for life in lives.all.iter() {
            all.add(life);
        }
    }
    all
}

fn write_units<W: Write>(out: &mut W, link: usize, near: &NearEnd, end: u64) -> Played<()> {
    for (unit, lives) in near.lives.iter().enumerate() {
        for life in lives.all.iter() {
            write_life(out, link, unit.saturating_add(1), life, end)?;
        }
    }
    Ok(())
}

fn write_life<W: Write>(
    out: &mut W,
    link: usize,
    unit: usize,
    life: &Life,
    end: u64,
) -> Played<()> {
    let first = Figure(life.first);
    let to = life.span.to.min(end);
    write!(out, "unit {link} {unit} from {} to {to}", life.span.from)?;
    write!(out, " first {first} gap {}", life.gap)?;
    writeln!(out, " scans {} writes {}", life.scans, life.writes)?;
    Ok(())
}
