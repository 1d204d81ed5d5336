//! The search for a device's map.
ghost use Rattle.std.specs.Prelude.{◌≢◌, ◌<◌, ◌≤◌, List, All};
ghost use Rattle.register_map.specs.Reads.{Counts, RegisterRead};
ghost use Rattle.register_map.specs.Chain.{IsChain};
ghost use Rattle.register_map.specs.Search.{IsSearch, IsDiscovery, IsMapOf};
ghost use Rattle.register_map.specs.Discovery.{is_read_fault, IsHeader, IsWord, IsMarked};

use crate::words::WordList;
use crate::{Block, MOST_MODELS, Map, MapFault, ReadFault, Registers};
use arrayvec::ArrayVec;

/// What stands at a device's base: `SunS`.
const MARK: [u16; 2] = [0x5375, 0x6E53];

/// The ID of the common model, which is the first.
const COMMON: u16 = 1;

/// The ID of the end model.
const END: u16 = 0xFFFF;

/// How many registers a device has.
const REGISTERS: u32 = 65536;

/// Finds the map of a device: the chain of models after the mark at the first of `bases` that has it
/// (SunSpec Device Information Model Specification, the layout of a device's Modbus registers).
///
/// The mark is read as two registers, then ID and length of each model by a read of one register each. The length of the end model
/// isn't read, nor that of a header at fault. Where the mark's read is refused, or gives other words, the next base is tried.
///
/// A base is at most 65534, so that both words of the mark have a register.
///
/// # Errors
/// [`MapFault::NoMark`] where no base has the mark, [`MapFault::NotCommon`] where the first model isn't the common one,
/// [`MapFault::PastEnd`] where a header lies past register 65535, [`MapFault::TooMany`] at a 65th model,
/// [`MapFault::Read`] where a read after a mark gave no words, or one of a mark failed.
/// Of two faults at one header the first in this order is given. A fault after a mark ends the search.
pub fn discover<R: Registers>(registers: &mut R, bases: &[u16]) -> Result<Map, MapFault>
    requires { All (λ b. b < 65535) bases.now }
    ensures searched { (log : List RegisterRead) × IsDiscovery R.reads registers.old bases.now registers.new log result }
    ensures counted { Counts (R.faults registers.old) (R.faults registers.new) (is_read_fault result) }
{
    search(registers, REGISTERS, bases)
}

/// Reads a list of words, the first at address 0, as a map at base 0.
///
/// # Errors
/// As for [`discover`], but for [`MapFault::Read`]; a list under two words is [`MapFault::NoMark`], and where a header lies past
/// the list it is [`MapFault::PastEnd`].
pub fn chain(words: &[u16]) -> Result<Map, MapFault>
    ensures map { IsMapOf words.now result }
    ensures readable { result ≢ Err MapFault.Read }
{
    let limit = words.len().min(REGISTERS as usize) as u32;
    search(&mut WordList { words }, limit, &[0])
}

/// Looks for the mark at each base in turn, and follows the models after it. Registers lie below the address `limit`.
fn search<R: Registers>(registers: &mut R, limit: u32, bases: &[u16]) -> Result<Map, MapFault>
    requires limit { limit ≤ REGISTERS }
    requires bases { All (λ b. b < 65535) bases.now }
    ensures searched { IsSearch R.reads limit registers.old bases.now registers.new result }
    ensures counted { Counts (R.faults registers.old) (R.faults registers.new) (is_read_fault result) }
{
    for base in bases {
        if is_marked(registers, *base)? {
            return models(registers, limit, u32::from(*base) + 2);
        }
    }
    Err(MapFault::NoMark)
}

/// Whether the mark stands at a base. Where the read is refused it doesn't.
fn is_marked<R: Registers>(registers: &mut R, base: u16) -> Result<bool, MapFault>
    ensures marked { IsMarked R.reads registers.old base registers.new result }
    ensures counted { Counts (R.faults registers.old) (R.faults registers.new) (is_read_fault result) }
{
    let mut words = [0; 2];
    match registers.read(base, &mut words) {
        Ok(()) => Ok(words == MARK),
        Err(ReadFault::Refused) => Ok(false),
        Err(ReadFault::Failed) => Err(MapFault::Read),
    }
}

/// The map whose first header is at `start`.
fn models<R: Registers>(registers: &mut R, limit: u32, start: u32) -> Result<Map, MapFault>
    requires { limit ≤ REGISTERS }
    ensures chained { IsChain R.reads limit registers.old start registers.new result }
    ensures counted { Counts (R.faults registers.old) (R.faults registers.new) (is_read_fault result) }
{
    let mut blocks = ArrayVec::new();
    let mut next = start;
    while let Some(block) = model(registers, limit, blocks.len(), next)? {
        blocks.push(block);
        next += 2 + u32::from(block.length);
    }
    Ok(Map::new(blocks, next as u16))
}

/// The model whose header is at `address`, after `before` others, or `None` at the end model.
fn model<R: Registers>(
    registers: &mut R,
    limit: u32,
    before: usize,
    address: u32,
) -> Result<Option<Block>, MapFault>
    requires limit { limit ≤ REGISTERS }
    requires before { before ≤ MOST_MODELS }
    ensures header { IsHeader R.reads limit registers.old before address registers.new result }
    ensures counted { Counts (R.faults registers.old) (R.faults registers.new) (is_read_fault result) }
{
    let id = word(registers, limit, address)?;
    if before == 0 && id != COMMON {
        return Err(MapFault::NotCommon);
    }
    if id == END {
        return Ok(None);
    }
    if address + 1 == limit {
        return Err(MapFault::PastEnd);
    }
    if before == MOST_MODELS {
        return Err(MapFault::TooMany);
    }
    let length = word(registers, limit, address + 1)?;
    Ok(Some(Block {
        id,
        addr: address as u16,
        length,
    }))
}

/// The word at an address, by a read of one register.
fn word<R: Registers>(registers: &mut R, limit: u32, address: u32) -> Result<u16, MapFault>
    requires { limit ≤ REGISTERS }
    ensures word { IsWord R.reads limit registers.old address registers.new result }
    ensures counted { Counts (R.faults registers.old) (R.faults registers.new) (is_read_fault result) }
{
    if address >= limit {
        return Err(MapFault::PastEnd);
    }
    let mut word = [0; 1];
    match registers.read(address as u16, &mut word) {
        Ok(()) => Ok(word[0]),
        Err(_) => Err(MapFault::Read),
    }
}
