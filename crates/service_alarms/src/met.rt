//! What was met at a point.
ghost use Rattle.std.specs.Prelude.{◌≡◌, option_copied};
ghost use Rattle.service_alarms.specs.Meeting.{met_by, met_in, met_of};

use gateway::{Core, DEPTH};
use point_types::value;
use site_model::SiteTag;
use site_model::readings::known_block;
use site_model::registers::{registers_at, scale_for};

/// What was met at a point: its raw number, and the factor by which that counts, as the device gives it; None where it gives
/// none.
#[derive(Clone, Copy, Debug, PartialEq, Eq)]
pub struct MetNumber {
    pub raw: i128,
    pub factor: Option<i16>,
}

/// What the last scan met at the point of a tag. None where no words of it are known, or they say that there is no value.
pub fn met_at(core: &Core<DEPTH>, tag: &SiteTag) -> Option<MetNumber> {
    met_of(tag, known_block(tag, core.site().wants(), core.scanned()))
}

/// What is met at the point of a tag in the words of its block, which begin with the model's ID (SunSpec Device Information
/// Model Specification, points and scale factors).
pub fn met_of(tag: &SiteTag, block: Option<&[u16]>) -> Option<MetNumber>
    ensures { result ≡ met_of tag.now (option_copied block.entry) }
{
    match block {
        Some(words) => met_in(tag, words),
        None => None,
    }
}

fn met_in(tag: &SiteTag, words: &[u16]) -> Option<MetNumber>
    ensures { result ≡ met_in tag.now words.now }
{
    let registers = registers_at(words, tag.offset, tag.point.size())?;
    let raw = value(tag.point, registers)?;
    let factor = scale_for(tag.bit, words, tag.sf)?;
    Some(MetNumber { raw, factor })
}
