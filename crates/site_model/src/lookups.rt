//! What a site's tags are and ask for.
ghost use Rattle.std.specs.Prelude.{◌≡◌, length};
ghost use Rattle.std.specs.List.{position};
ghost use Rattle.std.specs.Str.{bytes_eq};
ghost use Rattle.site_model.specs.TagView.{companion_at};
ghost use Rattle.site_model.specs.Readings.{AreReadings, AreSettings, AreUsable};
ghost use Rattle.site_model.specs.Wants.{AreOutputs, length_of, outs_of, wants_of};

use crate::companions::companion_at;
use crate::readings::readings;
use crate::site::Site;
use crate::want::Want;
use crate::wants::{length_of, place_of};
use modbus_frame::Words;
use point_types::Reading;

impl Site {
    /// The number of the tag of a name.
    pub fn tag(&self, name: &str) -> Option<usize>
        ensures { result ≡ position (λ t. bytes_eq t.name name.now) self.now.tags }
    {
        place_of(self.tags(), name)
    }

    /// The numbers of the `out` tags, in order.
    pub fn outs(&self) -> &[usize]
        ensures value { result.now ≡ self.now.outs }
        ensures written { result.now ≡ outs_of self.now.tags }
        ensures outputs { AreOutputs self.now.tags result.now }
    {
        self.outs.as_slice()
    }

    /// The number of the `out` tag without which the tag with this number isn't written (by the key `with`).
    pub fn companion(&self, number: usize) -> Option<usize>
        ensures { result ≡ companion_at self.now.tags number }
    {
        companion_at(self.companions.as_slice(), number)
    }

    /// The device and the model's ID of the `in` and `out` tags, each pair once, by first use.
    pub fn wants(&self) -> &[Want]
        ensures value { result.now ≡ self.now.wants }
        ensures wanted { result.now ≡ wants_of self.now.tags }
    {
        self.wants.as_slice()
    }

    /// The length of a model by its definition; None where neither the gateway nor a tag names the model.
    pub fn length(&self, model: u16) -> Option<u16>
        ensures { result ≡ length_of self.now.lengths model }
    {
        length_of(self.lengths.as_slice(), model)
    }

    /// Reads all tags, one entry of `into` each, by the known blocks of `wants()`, the numbers that were set, and the
    /// milliseconds since the scan before, None where there was none, as [`readings`] says. Each number in a reading lies in
    /// its tag's range, and a tag with a default isn't Absent.
    pub fn readings(
        &self,
        blocks: &[Option<Words>],
        sets: &[Option<i64>],
        elapsed: Option<u32>,
        into: &mut [Reading],
    )
        requires blocks { length blocks.now ≡ length self.now.wants }
        requires sets { length sets.now ≡ length self.now.tags }
        requires entries { length into.old ≡ length self.now.tags }
        requires settings { AreSettings self.now.tags sets.now }
        ensures readings { AreReadings self.now.tags self.now.wants blocks.now sets.now elapsed into.new }
        ensures usable { AreUsable self.now.tags into.new }
    {
        readings(self.tags(), self.wants(), blocks, sets, elapsed, into);
    }
}
