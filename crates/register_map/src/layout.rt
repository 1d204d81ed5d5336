//! A device's map: where its models lie.
ghost use Rattle.std.specs.Prelude.{◌≡◌, ◌<◌, All, IfSome};
ghost use Rattle.register_map.specs.Faults.{map_fault_word};

use arrayvec::ArrayVec;
use std::fmt;
use std::marker::Model;
use thiserror::Error;

/// How many models a map has at most.
pub const MOST_MODELS: usize = 64;

/// Where the models of a device lie in its registers, in the order of their addresses.
#[derive(Debug, Drop)]
pub struct Map {
    blocks: ArrayVec<Block, MOST_MODELS>,
    end: u16,
}

/// The registers of one model.
#[derive(Clone, Copy, Debug, Default, PartialEq, Eq)]
pub struct Block {
    /// The model's ID, which the first register holds.
    pub id: u16,
    /// The address of that register. The length follows in the next one.
    pub addr: u16,
    /// How many registers follow ID and length.
    pub length: u16,
}

impl Model for Map {
    ghost use Rattle.std.specs.Prelude.{◌<◌, All};
    ghost use Rattle.register_map.specs.Layout.{Layout, LiesBefore};

    ghost Value = { Layout };

    ghost view = { λ m. record { blocks = m.blocks.items; end = m.end } };

    ghost invariant = { λ m. All (LiesBefore m.end) m.blocks.items × (m.end < 65536) };
}

impl Map {
    ghost use Rattle.register_map.specs.Layout.{LiesBefore, block_of};

    /// The map of these blocks, which all lie before the end model.
    pub(crate) fn new(blocks: ArrayVec<Block, MOST_MODELS>, end: u16) -> Map
        requires { All (LiesBefore end) blocks.items }
        ensures blocks { result.blocks ≡ blocks.items }
        ensures end { result.end ≡ end }
    {
        Map { blocks, end }
    }

    /// The blocks of the device's models, the end model aside.
    pub fn blocks(&self) -> &[Block]
        ensures blocks { result.now ≡ self.now.blocks }
        ensures inside { All (LiesBefore self.now.end) result.now }
        ensures end { self.now.end < 65536 }
    {
        &self.blocks
    }

    /// The block of the model with this ID; the first one, where a device has two.
    pub fn block(&self, id: u16) -> Option<Block>
        ensures first { result ≡ block_of self.now id }
        ensures inside { IfSome result (LiesBefore self.now.end) }
        ensures end { self.now.end < 65536 }
    {
        self.blocks.iter().copied().find(|block| block.id == id)
    }

    /// The address of the end model's ID, after all blocks.
    pub fn end(&self) -> u16
        ensures { result ≡ self.now.end }
    {
        self.end
    }
}

/// Why no map was found.
#[derive(Clone, Copy, Debug, PartialEq, Eq, Error)]
pub enum MapFault {
    /// No base has the mark `SunS`.
    NoMark = 1,
    /// The first model isn't the common model, whose ID is 1.
    NotCommon,
    /// A header lies past the last register.
    PastEnd,
    /// There are more than [`MOST_MODELS`] models.
    TooMany,
    /// A register couldn't be read.
    Read,
}

impl fmt::Display for MapFault {
    fn fmt<W: fmt::Write>(&self, f: &mut fmt::Formatter<W>) -> fmt::Result {
        f.write_str(self.word())
    }
}

impl MapFault {
    /// The fault's name, as it is printed.
    pub fn word(self) -> &'static str
        ensures { result.now ≡ map_fault_word self }
    {
        match self {
            MapFault::NoMark => "NoMark",
            MapFault::NotCommon => "NotCommon",
            MapFault::PastEnd => "PastEnd",
            MapFault::TooMany => "TooMany",
            MapFault::Read => "Read",
        }
    }
}
