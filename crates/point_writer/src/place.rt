//! Where a tag's point lies in its device.
ghost use Rattle.std.specs.Prelude.{◌≡◌, ◌≤◌, ◌<◌, ◌+◌, length, take, option_map, IfSome};
ghost use Rattle.point_writer.specs.SetPoint.{mapped_words, place_in, place_of};
ghost use Rattle.point_writer.specs.Places.{place_view};

use register_map::{Block, Map};
use site_model::readings::known_block;
use site_model::registers::{registers_at, scale_at};
use site_model::{SiteTag, Want, Words};

/// A device, the address of the point's first register, and the point's factor: None where it is absent.
#[derive(Clone, Copy)]
pub(crate) struct PointPlace {
    pub(crate) device: usize,
    pub(crate) addr: u16,
    pub(crate) factor: Option<i16>,
}

/// The place of a tag's point, by the maps of the devices and the words that are known of the wanted blocks.
pub(crate) fn place_of(
    tag: &SiteTag,
    wants: &[Want],
    blocks: &[Option<Words>],
    maps: &[Option<Map>],
) -> Option<PointPlace>
    requires { length blocks.now ≡ length wants.now }
    ensures { option_map place_view result ≡ place_of maps.now wants.now blocks.now tag.now }
{
    let device = tag.device?;
    let map = maps.get(device)?.as_ref()?;
    let block = map.block(tag.model)?;
    let words = known_block(tag, wants, blocks)?;
    place_in(tag, device, block, mapped_words(block, words))
}

/// The words of a block as far as its map's length goes.
fn mapped_words(block: Block, words: &[u16]) -> &[u16]
    ensures { result.now ≡ mapped_words block words.now }
{
    let count = usize::from(block.length) + 2;
    if count < words.len() {
        words.split_at(count).0
    } else {
        words
    }
}

fn place_in(tag: &SiteTag, device: usize, block: Block, words: &[u16]) -> Option<PointPlace>
    requires mapped { length words.now ≤ block.length + 2 }
    requires in_registers { block.addr + 2 + block.length < 65536 }
    ensures { option_map place_view result ≡ place_in tag.now device block words.now }
{
    let _point = registers_at(words, tag.offset, tag.point.size())?;
    let factor = scale_at(words, tag.sf)?;
    Some(PointPlace {
        device,
        addr: block.addr + tag.offset,
        factor,
    })
}
