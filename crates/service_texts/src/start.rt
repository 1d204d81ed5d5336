//! A start.
ghost use Rattle.std.specs.Prelude.{◌≡◌, ◌++◌, codes, string_bytes, IfOk};
ghost use Rattle.service_texts.specs.Beginning.{IsStart, started_line};

use crate::clock_times::time_of_day;
use crate::digits::digits_of;
use std::alloc::{AllocError, Global};

/// What is told of a start.
#[derive(Drop)]
pub struct Start {
    /// The time of day.
    pub time: String,
    /// The version of the program that starts.
    pub version: &'static str,
    /// The site file, by its first twelve digits.
    pub site: String,
    /// The program for the site, by its first twelve digits.
    pub program: String,
}

impl Start {
    /// A start after so many seconds since 1970-01-01T00:00:00Z, of a version, on the texts of a site file and a program.
    pub fn of(
        alloc: Global,
        seconds: Option<u64>,
        version: &'static str,
        site: &str,
        program: &str,
    ) -> Result<Start, AllocError>
        ensures { IfOk result (IsStart seconds version.entry.now site.now program.now) }
    {
        Ok(Start {
            time: time_of_day(alloc, seconds)?,
            version,
            site: digits_of(alloc, site)?,
            program: digits_of(alloc, program)?,
        })
    }

    /// `started TIME sunsite VERSION site HASH program HASH`, a whole line.
    pub fn line(&self, alloc: Global) -> Result<String, AllocError>
        ensures { IfOk result (λ text. string_bytes text ≡ started_line self.now) }
    {
        let (time, version) = (self.time.as_str(), self.version);
        started(
            alloc,
            time,
            version,
            self.site.as_str(),
            self.program.as_str(),
        )
    }
}

fn started(
    alloc: Global,
    time: &str,
    version: &str,
    site: &str,
    program: &str,
) -> Result<String, AllocError>
    ensures { IfOk result (λ text. string_bytes text ≡ codes "started " ++ time.now ++ codes " sunsite " ++ version.now ++ codes " site " ++ site.now ++ codes " program " ++ program.now ++ codes "\n") }
{
    let text = format!(in alloc;
        "started {time} sunsite {version} site {site} program {program}\n"
    )?;
    Ok(text)
}
