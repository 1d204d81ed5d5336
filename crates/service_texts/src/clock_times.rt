//! The time of day.
ghost use Rattle.std.specs.Prelude.{◌≡◌, ◌≤◌, ◌<◌, ◌*◌, ◌++◌, pos, codes, string_bytes, Some, IfOk, MatchOption};
ghost use Rattle.jiff.specs.Words.{civil_nanos, iso_datetime_text};
ghost use Rattle.service_texts.specs.Starting.{IsTimed, IsTimeOfDay, timed, times_word};
ghost use Rattle.service_texts.specs.declared.clock_times.Times.{Times as TimesValue};

use jiff::Timestamp;
use jiff::civil::DateTime;
use jiff::tz::Offset;
use std::alloc::{AllocError, Global};

/// What stands in place of a time of day that isn't known.
const UNKNOWN: &str = "-";

/// The last second that has a time of day.
const LAST_SECOND: u64 = 253_402_207_200;

/// By which time lines are told.
#[derive(Clone, Copy)]
pub enum Times {
    /// The seconds since the start.
    Seconds,
    /// The time of day, in UTC.
    Utc,
}

/// What a word says of the time of lines; none where it says nothing of that.
pub fn times_of(word: &str) -> Option<Times>
    ensures { MatchOption result ((times : TimesValue) → word.now ≡ times_word times → ⊥) (λ times. word.now ≡ times_word times) }
{
    match word {
        "seconds" => Some(Times::Seconds),
        "utc" => Some(Times::Utc),
        _ => None,
    }
}

/// The time of day of so many seconds since 1970-01-01T00:00:00Z, as `2026-11-26T18:44:48Z`; `-` where they aren't known, or
/// are past 9999-12-30T22:00:00Z.
pub fn time_of_day(alloc: Global, seconds: Option<u64>) -> Result<String, AllocError>
    ensures { IfOk result (λ text. IsTimeOfDay seconds (string_bytes text)) }
{
    match seconds {
        Some(seconds) => time_of_second(alloc, seconds),
        None => String::from_str(alloc, UNKNOWN),
    }
}

fn time_of_second(alloc: Global, seconds: u64) -> Result<String, AllocError>
    ensures { IfOk result (λ text. IsTimeOfDay (Some seconds) (string_bytes text)) }
{
    match datetime_of(seconds) {
        Some(shown) => in_utc(alloc, shown),
        None => String::from_str(alloc, UNKNOWN),
    }
}

fn in_utc(alloc: Global, shown: DateTime) -> Result<String, AllocError>
    ensures { IfOk result (λ text. string_bytes text ≡ iso_datetime_text shown ++ codes "Z") }
{
    let text = format!(in alloc; "{shown}Z")?;
    Ok(text)
}

/// What a clock in UTC shows after so many seconds.
fn datetime_of(seconds: u64) -> Option<DateTime>
    ensures { MatchOption result (LAST_SECOND < seconds) (λ shown. (seconds ≤ LAST_SECOND) × (civil_nanos shown ≡ pos (seconds * 1_000_000_000))) }
{
    if seconds > LAST_SECOND {
        return None;
    }
    let instant = Timestamp::from_second(seconds as i64).ok()?;
    Some(Offset::UTC.to_datetime(instant))
}

/// A line after the time of day.
pub fn timed_line(alloc: Global, seconds: Option<u64>, line: &str) -> Result<String, AllocError>
    ensures { IfOk result (λ text. IsTimed seconds line.now (string_bytes text)) }
{
    let time = time_of_day(alloc, seconds)?;
    after_time(alloc, time.as_str(), line)
}

fn after_time(alloc: Global, time: &str, line: &str) -> Result<String, AllocError>
    ensures { IfOk result (λ text. string_bytes text ≡ timed time.now line.now) }
{
    let text = format!(in alloc; "{time} {line}\n")?;
    Ok(text)
}
