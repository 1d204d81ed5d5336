//! Whether the tags that one goes with have set points.
ghost use Rattle.std.specs.Prelude.{◌≡◌, length, false, true};
ghost use Rattle.point_writer.specs.Going.{AreCompanionsSet, HasNone, HasSetPoint, IsOneUnset};
ghost use Rattle.site_model.specs.Readings.{AreSettings};
ghost use Rattle.site_model.specs.TagView.{companion_at};

use crate::plan::plan_alone;
use register_map::Map;
use site_model::{Site, Words};

/// Whether each tag that the one with this number goes with has a set point, through others too.
pub(crate) fn are_companions_set(
    site: &Site,
    outputs: &[Option<i64>],
    blocks: &[Option<Words>],
    maps: &[Option<Map>],
    number: usize,
) -> bool
    requires outputs { length outputs.now ≡ length site.now.tags }
    requires ranged { AreSettings site.now.tags outputs.now }
    requires blocks { length blocks.now ≡ length site.now.wants }
    ensures set { result ≡ true → AreCompanionsSet site.now.tags site.now.wants maps.now blocks.now outputs.now number }
    ensures unset { result ≡ false → IsOneUnset site.now.tags site.now.wants maps.now blocks.now outputs.now (length site.now.tags) (companion_at site.now.tags number) }
{
    let mut companion = site.companion(number);
    let mut left = site.tags().len();
    while left > 0 {
        let Some(number) = companion else {
            return true;
        };
        if !has_set_point(site, outputs, blocks, maps, number) {
            return false;
        }
        companion = site.companion(number);
        left -= 1;
    }
    companion.is_none()
}

/// Whether the tag with this number has a set point, if it goes alone.
fn has_set_point(
    site: &Site,
    outputs: &[Option<i64>],
    blocks: &[Option<Words>],
    maps: &[Option<Map>],
    number: usize,
) -> bool
    requires outputs { length outputs.now ≡ length site.now.tags }
    requires ranged { AreSettings site.now.tags outputs.now }
    requires blocks { length blocks.now ≡ length site.now.wants }
    ensures set { result ≡ true → HasSetPoint site.now.tags site.now.wants maps.now blocks.now outputs.now number }
    ensures unset { result ≡ false → HasNone site.now.tags site.now.wants maps.now blocks.now outputs.now number }
{
    if number >= outputs.len() {
        return false;
    }
    match plan_alone(site, outputs, blocks, maps, number) {
        Ok(_) => true,
        Err(_) => false,
    }
}
