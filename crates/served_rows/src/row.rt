//! A point with its address.
ghost use Rattle.std.specs.Prelude.{◌≡◌, ◌↔◌, IsTrue};
ghost use Rattle.gateway.specs.served.Points.{registers_of};
ghost use Rattle.served_rows.specs.Rows.{IsSet, after_point};

use gateway::{OwnPoint, setting_of};
use site_model::SiteTag;

/// A point of the gateway's own map.
#[derive(Clone, Copy)]
pub struct MapRow {
    /// The address of its first register; the first register of all has the address 0.
    pub address: usize,
    pub subject: PointSubject,
    pub point: OwnPoint,
}

/// What a point is of (SunSpec Device Information Model Specification, device modbus maps).
#[derive(Clone, Copy, PartialEq, Eq, Debug)]
pub enum PointSubject {
    /// The mark `SunS`, which stands before the models.
    Mark,
    /// The point of this number of the model of this number; a model's first two are its ID and its length.
    Point { model: usize, point: usize },
    /// The end model, which has an ID and the length 0.
    End,
}

impl MapRow {
    /// How many registers it has.
    pub fn registers(&self) -> usize
        ensures { result ≡ registers_of self.now.point }
    {
        self.point.registers()
    }

    /// The address after its last register; the largest number stays.
    pub(crate) fn end(&self) -> usize
        ensures { result ≡ after_point self.now.address self.now.point }
    {
        self.address.saturating_add(self.registers())
    }

    /// Whether clients may write it: it is a `set` tag's.
    pub fn is_set(&self, tags: &[SiteTag]) -> bool
        ensures { IsTrue result ↔ IsSet tags.now self.now.point }
    {
        setting_of(tags, self.point).is_some()
    }
}
