//! What devices show of what they took.
ghost use Rattle.std.specs.Prelude.{◌≡◌, ℕ, List, None, Some, ◌&&◌, option_map, if◌then◌else◌};
ghost use Rattle.service.specs.Comparing.{AreCompared, ComparesOne, is_other};
ghost use Rattle.service.specs.Having.{HasNoMore};
ghost use Rattle.service.specs.ReadBack.{IsShownBy, block_by, is_block, shown_in};
ghost use Rattle.service.specs.Timing.{StaysAt};
ghost use Rattle.service.specs.Told.{IsShown, ShowsBy, compares_at};

use crate::read_back::{Shown, begins_with};
use crate::service_state::Service;
use gateway::Outcome;
use service_parts::{Aim, Asked};

impl Service {
    /// A device answered. Where that is a wanted block, what it shows of each output is compared with what the device took last over
    /// this very connection: what differs is told, once, and isn't had any more, so that it is written again.
    pub(crate) fn compare(&mut self, asked: &Asked, outcome: &Outcome)
        ensures compared { (block : List ℕ) → block_by self.old.cycle.core.value.site.wants asked.now.aim outcome.now ≡ Some block → AreCompared asked.now block self.old self.new }
        ensures lines { self.new.lines ≡ self.old.lines }
        ensures cycle { self.new.cycle ≡ self.old.cycle }
        ensures places { self.new.places.items ≡ self.old.places.items }
        ensures time { StaysAt self.old self.new }
        ensures held { HasNoMore self.old.held self.new.held }
        ensures stands { ShowsBy (IsShownBy self.old.cycle.core.value.site.wants self.old.held asked.now outcome.now) self.old.side self.new.side }
    {
        if let Some(block) = self.block_by(asked.aim, outcome) {
            self.compare_all(asked, block);
        }
    }

    /// The wanted block that a device tells by its answer to a request that was made for this.
    fn block_by<'a>(&self, aim: Aim, outcome: &'a Outcome) -> Option<&'a [u16]>
        ensures { option_map (λ words. words.now) result ≡ block_by self.entry.now.cycle.core.value.site.wants aim outcome.now }
    {
        match outcome {
            Outcome::Words(words) => self.block_in(aim, words.as_slice()),
            Outcome::Wrote | Outcome::Exception(_) | Outcome::Mismatch | Outcome::Stale => None,
        }
    }

    fn block_in<'a>(&self, aim: Aim, words: &'a [u16]) -> Option<&'a [u16]>
        ensures { option_map (λ own. own.now) result ≡ (if is_block self.entry.now.cycle.core.value.site.wants aim words.now then Some words.now else None) }
    {
        if self.is_block(aim, words) {
            Some(words)
        } else {
            None
        }
    }

    /// Whether these words are the wanted block that was asked for.
    fn is_block(&self, aim: Aim, words: &[u16]) -> bool
        ensures { result ≡ is_block self.entry.now.cycle.core.value.site.wants aim words.now }
    {
        let Aim::Block(i) = aim else {
            return false;
        };
        match self.cycle.core().site().wants().get(i) {
            Some(want) => begins_with(want.model, words),
            None => false,
        }
    }

    fn compare_all(&mut self, asked: &Asked, block: &[u16])
        ensures compared { AreCompared asked.now block.now self.old self.new }
        ensures lines { self.new.lines ≡ self.old.lines }
        ensures cycle { self.new.cycle ≡ self.old.cycle }
        ensures places { self.new.places.items ≡ self.old.places.items }
        ensures time { StaysAt self.old self.new }
        ensures held { HasNoMore self.old.held self.new.held }
        ensures stands { ShowsBy (λ output this. shown_in self.old.held asked.now block.now output ≡ Some this) self.old.side self.new.side }
    {
        for output in 0..self.side.outputs.len() {
            self.compare_output(asked, block, output);
        }
    }

    fn compare_output(&mut self, asked: &Asked, block: &[u16], output: usize)
        ensures compared { ComparesOne (shown_in self.old.held asked.now block.now output) output self.old self.new }
        ensures lines { self.new.lines ≡ self.old.lines }
        ensures cycle { self.new.cycle ≡ self.old.cycle }
        ensures places { self.new.places.items ≡ self.old.places.items }
        ensures time { StaysAt self.old self.new }
        ensures held { HasNoMore self.old.held self.new.held }
        ensures stands { ShowsBy (λ k this. (k ≡ output) × (shown_in self.old.held asked.now block.now output ≡ Some this)) self.old.side self.new.side }
    {
        if let Some(shown) = self.held.shown_in(asked, block, output) {
            self.take_shown(output, shown);
        }
    }

    /// The device of an output shows this of it.
    #[tactic(auto, using(crate::proofs::Saying::right_held))]
    fn take_shown(&mut self, output: usize, shown: Shown)
        ensures compared { ComparesOne (Some shown) output self.old self.new }
        ensures lines { self.new.lines ≡ self.old.lines }
        ensures cycle { self.new.cycle ≡ self.old.cycle }
        ensures places { self.new.places.items ≡ self.old.places.items }
        ensures time { StaysAt self.old self.new }
        ensures held { HasNoMore self.old.held self.new.held }
        ensures stands { ShowsBy (IsShown output shown) self.old.side self.new.side }
    {
        let is_over = self.is_to_write(output, shown);
        self.held.drop_if(is_over, output);
        self.side.show(output, shown);
    }

    /// Whether an output is to be written again of which its device shows this.
    fn is_to_write(&self, output: usize, shown: Shown) -> bool
        ensures { result ≡ (compares_at self.entry.now.side output && is_other (Some shown)) }
    {
        self.side.compares(output) && is_other(shown)
    }
}

fn is_other(shown: Shown) -> bool
    ensures { result ≡ is_other (Some shown) }
{
    match shown {
        Shown::Same => false,
        Shown::Other(_) => true,
    }
}
