//! The numbers that are written in place of those that the program stored.
ghost use Rattle.std.specs.Prelude.{◌≡◌, ◌≤ℤ◌, ◌<◌, ℤ, length, slice_get, option_map, IfNone, IfSome};
ghost use Rattle.point_writer.specs.Fitting.{GoesOut};
ghost use Rattle.service_alarms.specs.Fitted.{IsFitted, NoneIsFitted};
ghost use Rattle.site_model.specs.Readings.{known_at};

use gateway::{Core, DEPTH};
use point_writer::number_out;
use site_model::{Site, SiteTag};

/// The number, in units of the tag's exponent, that goes out for the i-th output in place of the one that the program stored in
/// the last scan; None where that one goes out, or none does.
pub fn fitted_number(core: &Core<DEPTH>, i: usize) -> Option<i64>
    ensures out { IfSome result (IsFitted core.now i) }
    ensures none { IfNone result (NoneIsFitted core.now i) }
{
    if i >= core.site().outs().len() {
        return None;
    }
    let place = place_of(core.site(), i)?;
    let tag = tag_at(core.site(), place)?;
    let stored = stored_at(core.outputs(), place)?;
    other_number(tag, stored, core.factor(i))
}

/// The number of the tag of the i-th output.
fn place_of(site: &Site, i: usize) -> Option<usize>
    ensures { result ≡ slice_get site.now.outs i }
{
    site.outs().get(i).copied()
}

fn tag_at(site: &Site, place: usize) -> Option<&SiteTag>
    ensures { option_map (λ t. t.now) result ≡ slice_get site.now.tags place }
{
    site.tags().get(place)
}

/// What the program stored in the tag of this number.
fn stored_at(outputs: &[Option<i64>], place: usize) -> Option<i64>
    ensures { result ≡ known_at outputs.now place }
{
    match outputs.get(place) {
        Some(stored) => *stored,
        None => None,
    }
}

/// The number that goes out for another one.
fn other_number(tag: &SiteTag, stored: i64, factor: Option<i16>) -> Option<i64>
    ensures out { IfSome result (λ n. GoesOut tag.now factor stored n × (n ≡ stored → ⊥)) }
    ensures none { IfNone result ((n : ℤ) → tag.now.low ≤ℤ stored → stored ≤ℤ tag.now.high → GoesOut tag.now factor stored n → n ≡ stored) }
{
    let number = number_out(tag, stored, factor)?;
    if number == stored {
        return None;
    }
    Some(number)
}
