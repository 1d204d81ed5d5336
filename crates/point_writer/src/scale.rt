//! The factor by which a number would be written.
ghost use Rattle.std.specs.Prelude.{◌≡◌, ◌<◌, length};
ghost use Rattle.point_writer.specs.SetPoint.{IsFactorFor, factor_of};

use crate::place::place_of;
use register_map::Map;
use site_model::{Site, SiteTag, Want, Words};

/// The factor that its device gives for the point of the i-th of the site's `out` tags; None where the point has no place,
/// or the device gives none. By it [`plan`](crate::plan::plan) judges, with the same blocks and maps (SunSpec Device
/// Information Model Specification, points and scale factors).
pub fn factor(site: &Site, blocks: &[Option<Words>], maps: &[Option<Map>], i: usize) -> Option<i16>
    requires place { i < length site.now.outs }
    requires blocks { length blocks.now ≡ length site.now.wants }
    ensures { IsFactorFor site.now.tags site.now.outs site.now.wants maps.now blocks.now i result }
{
    let number = site.outs()[i];
    factor_of(&site.tags()[number], site.wants(), blocks, maps)
}

fn factor_of(
    tag: &SiteTag,
    wants: &[Want],
    blocks: &[Option<Words>],
    maps: &[Option<Map>],
) -> Option<i16>
    requires { length blocks.now ≡ length wants.now }
    ensures { result ≡ factor_of maps.now wants.now blocks.now tag.now }
{
    place_of(tag, wants, blocks, maps)?.factor
}
