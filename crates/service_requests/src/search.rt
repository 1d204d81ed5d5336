//! The search for a device's map, one read at a time.
ghost use Rattle.std.specs.Prelude.{◌≡◌, ◌↔◌, ℕ, IsTrue, ◌++◌, ◌∷◌, ◌<◌, ◌≤◌, List, [], length, map, IfSome, Some, None, Err};
ghost use Rattle.std.specs.Prelude.{Ok};
ghost use Rattle.register_map.specs.Layout.{Layout as LayoutValue};
ghost use Rattle.register_map.specs.Reads.{RegisterRead};
ghost use Rattle.register_map.specs.Search.{IsDiscovery};
ghost use Rattle.gateway.specs.poller.Finding.{bases_by};
ghost use Rattle.service_requests.specs.declared.search.CommonRead.TheVariants.{Done as done};
ghost use Rattle.service_requests.specs.Searches.{HasStepQuantity, IsNext, IsOver, ReadsCommon, Replays, answer_held, answer_told, common_by, common_of, end_by, most_reads, step_by};

use crate::identity::COMMON_WORDS;
use crate::read_answer::ReadAnswer;
use crate::replay::Replay;
use arrayvec::ArrayVec;
use gateway::Outcome;
use modbus_frame::Request;
use register_map::{Map, MapFault};
use std::marker::Model;

/// The common model.
const COMMON: u16 = 1;

/// The search for a device's map: the answers so far. It ends after 132 reads at most, and one more where the device has to say
/// which one it is.
///
/// A contract sees its base, the answers, and whether the common model is read.
#[derive(Drop)]
pub struct Search {
    base: Option<u16>,
    told: ArrayVec<ReadAnswer, 132>,
    common: CommonRead,
}

/// Whether a search ends with a read of the common model.
#[derive(Clone, Copy)]
pub enum CommonRead {
    /// It doesn't.
    Unwanted,
    /// It does, and that had no answer yet.
    Wanted,
    /// It does, and that was answered.
    Done,
}

/// What a search does next.
#[derive(Drop)]
pub enum SearchStep {
    /// It asks this of the device, and takes the outcome.
    Ask(Request),
    /// The device has this map, and answered the read of its common model where that is wanted.
    Found(Map),
    /// The device has a map, without the common model that is to say which device it is.
    Unnamed,
    /// The device has none.
    NoMap,
}

impl Model for Search {
    ghost use Rattle.std.specs.Prelude.{◌≤◌, length, map};
    ghost use Rattle.service_requests.specs.Searches.{Sought, answer_told};

    ghost Value = { Sought };

    ghost view = { λ s. record { base = s.base; answers = map answer_told s.told.items; common = s.common } };

    ghost invariant = { λ s. length s.told.items ≤ 132 };
}

impl Search {
    /// A search at the device's own base alone, where that is known, else at 40000, 50000 and 0. 65535 is no base. Where the device
    /// has to say which one it is, the search ends with a read of its common model.
    pub fn new(base: Option<u16>, is_to_say: bool) -> Search
        ensures { result ≡ record { base = base; answers = []; common = common_by is_to_say } }
    {
        Search {
            base,
            told: ArrayVec::new(),
            common: common_by(is_to_say),
        }
    }

    /// What comes next: the next read, by the answers so far, or what they show.
    pub fn next(&self) -> SearchStep
        ensures next { IsNext self.now result }
        ensures quantity { HasStepQuantity result }
    {
        let mut replay = Replay::of(&self.told);
        let result = replay.search(self.base);
        step_by(self.common, replay.wanted(), result)
    }

    /// Whether the next read is that of the common model.
    pub fn is_common_next(&self) -> bool
        ensures { IsTrue result → (address : ℕ) × ReadsCommon self.now address }
    {
        match self.common {
            CommonRead::Wanted => self.ends_at_common(),
            CommonRead::Unwanted | CommonRead::Done => false,
        }
    }

    /// Whether the answers so far lead to a map with a common model.
    fn ends_at_common(&self) -> bool
        ensures { IsTrue result → (found : LayoutValue) × (address : ℕ) × IsOver self.now (Ok found) × (common_of found ≡ Some address) }
    {
        let mut replay = Replay::of(&self.told);
        let result = replay.search(self.base);
        replay.wanted().is_none() && has_common(result)
    }

    /// The read of the common model was answered.
    pub fn end_common(&mut self)
        ensures { self.new ≡ record self.old { common = done } }
    {
        self.common = CommonRead::Done;
    }

    /// Whether it has as many answers as it takes.
    pub fn is_full(&self) -> bool
        ensures { IsTrue result ↔ (most_reads ≤ length self.now.answers) }
    {
        self.told.len() >= 132
    }

    /// Takes the outcome of the read that came next. With one that gives neither as many registers nor an exception
    /// the device has no map.
    pub fn take(&mut self, outcome: &Outcome)
        requires { length self.old.answers < most_reads }
        ensures { self.new ≡ record self.old { answers = self.old.answers ++ answer_held outcome.now ∷ [] } }
    {
        self.told.push(ReadAnswer::by(outcome));
    }
}

fn common_by(is_to_say: bool) -> CommonRead
    ensures { result ≡ common_by is_to_say }
{
    if is_to_say {
        CommonRead::Wanted
    } else {
        CommonRead::Unwanted
    }
}

/// The read that had no answer, or the result.
fn step_by(
    common: CommonRead,
    wanted: Option<(u16, usize)>,
    found: Result<Map, MapFault>,
) -> SearchStep
    requires { IfSome wanted (λ at. (1 ≤ at.1) × (at.1 ≤ 125)) }
    ensures step { result ≡ step_by common wanted found }
    ensures quantity { HasStepQuantity result }
{
    match wanted {
        Some((addr, count)) => SearchStep::Ask(Request::Read {
            addr,
            qty: count as u16,
        }),
        None => match found {
            Ok(map) => end_by(common, map),
            Err(_) => SearchStep::NoMap,
        },
    }
}

/// The end of a search that found a map, or the read of the common model.
fn end_by(common: CommonRead, map: Map) -> SearchStep
    ensures step { result ≡ end_by common map }
    ensures quantity { HasStepQuantity result }
{
    match common {
        CommonRead::Unwanted | CommonRead::Done => SearchStep::Found(map),
        CommonRead::Wanted => match common_of(&map) {
            Some(addr) => SearchStep::Ask(Request::Read {
                addr,
                qty: COMMON_WORDS,
            }),
            None => SearchStep::Unnamed,
        },
    }
}

/// Where the common model stands in a map; None where the map has none, or a shorter one.
fn common_of(map: &Map) -> Option<u16>
    ensures { result ≡ common_of map.now }
{
    match map.block(COMMON) {
        Some(block) if block.length >= COMMON_WORDS - 2 => Some(block.addr),
        _ => None,
    }
}

fn has_common(found: Result<Map, MapFault>) -> bool
    ensures { IsTrue result → (map : LayoutValue) × (address : ℕ) × (found ≡ Ok map) × (common_of map ≡ Some address) }
{
    match found {
        Ok(map) => common_of(&map).is_some(),
        Err(_) => false,
    }
}
