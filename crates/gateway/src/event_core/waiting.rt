//! Time that goes by: what clients set grows older, and lapses.
ghost use Rattle.std.specs.Prelude.{◌≡◌, false, length, option_map};
ghost use Rattle.gateway.specs.event_core.SiteRun.{all_held, all_older, has_lapsed, held, later, older};
ghost use Rattle.site_model.specs.Readings.{AreSettings};

use crate::event_core::MOST_ELAPSED;
use site_model::SiteTag;

/// The most milliseconds since a client's write that are told apart: a day, which is the longest that one may hold before
/// it lapses.
const MOST_AGE: u32 = 86_400_000;

/// The milliseconds since the last scan, where there was one, so much later; an hour at most.
pub(crate) fn elapsed_after(elapsed: Option<u32>, ms: u32) -> Option<u32>
    ensures { result ≡ option_map (λ n. later n ms) elapsed }
{
    match elapsed {
        Some(before) => Some(later(before, ms)),
        None => None,
    }
}

fn later(before: u32, ms: u32) -> u32
    ensures { result ≡ later before ms }
{
    match before.checked_add(ms) {
        Some(after) if after < MOST_ELAPSED => after,
        _ => MOST_ELAPSED,
    }
}

/// What clients set was set so much longer ago.
pub(crate) fn grow_older(ages: &mut [Option<u32>], ms: u32)
    ensures older { ages.new ≡ all_older ms ages.old }
    ensures len { length ages.new ≡ length ages.old }
{
    for age in ages.iter_mut() {
        *age = aged(*age, ms);
    }
}

fn aged(age: Option<u32>, ms: u32) -> Option<u32>
    ensures { result ≡ option_map (older ms) age }
{
    match age {
        Some(age) => Some(older(age, ms)),
        None => None,
    }
}

fn older(age: u32, ms: u32) -> u32
    ensures { result ≡ older ms age }
{
    match age.checked_add(ms) {
        Some(after) if after < MOST_AGE => after,
        _ => MOST_AGE,
    }
}

/// Whether something was set too long ago.
pub(crate) fn some_lapses(tags: &[SiteTag], ages: &[Option<u32>], sets: &[Option<i64>]) -> bool
    requires ages { length ages.now ≡ length tags.now }
    requires sets { length sets.now ≡ length tags.now }
    ensures none { result ≡ false → all_held tags.now ages.now sets.now ≡ sets.now }
{
    for (i, tag) in tags.iter().enumerate() {
        if changes(tag, ages[i], sets[i]) {
            return true;
        }
    }
    false
}

fn changes(tag: &SiteTag, age: Option<u32>, set: Option<i64>) -> bool
    ensures { result ≡ false → held tag.now age set ≡ set }
{
    set.is_some() && has_lapsed(tag.lapse, age)
}

/// What was set too long ago is as never set.
pub(crate) fn lapse(tags: &[SiteTag], ages: &[Option<u32>], sets: &mut [Option<i64>])
    requires ages { length ages.now ≡ length tags.now }
    requires sets { length sets.old ≡ length tags.now }
    requires ranged { AreSettings tags.now sets.old }
    ensures held { sets.new ≡ all_held tags.now ages.now sets.old }
    ensures ranged { AreSettings tags.now sets.new }
    ensures len { length sets.new ≡ length sets.old }
{
    for (i, tag) in tags.iter().enumerate() {
        sets[i] = held(tag, ages[i], sets[i]);
    }
}

/// What holds of what was set so long ago.
fn held(tag: &SiteTag, age: Option<u32>, set: Option<i64>) -> Option<i64>
    ensures { result ≡ held tag.now age set }
{
    if has_lapsed(tag.lapse, age) {
        None
    } else {
        set
    }
}

/// Whether what was set so many milliseconds ago has lapsed, after so many seconds.
pub fn has_lapsed(lapse: Option<u32>, age: Option<u32>) -> bool
    ensures { result ≡ has_lapsed lapse age }
{
    match (lapse, age) {
        (Some(seconds), Some(age)) => u64::from(seconds) * 1000 <= u64::from(age),
        (Some(_), None) | (None, _) => false,
    }
}
