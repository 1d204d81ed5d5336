//! In which order a scan writes its outputs.
ghost use Rattle.std.specs.Prelude.{◌≡◌, ◌<◌, ◌++◌, [], ◌∷◌, length, slice_get, slice_index_or, take};
ghost use Rattle.site_model.specs.TagView.{companion_at};
ghost use Rattle.gateway.specs.poller.Cycle.{after_turn, first_order, most_outputs, outputs_with, same_tag};

use arrayvec::ArrayVec;
use site_model::Site;
use site_model::rules::MOST_TAGS;

/// The outputs of a scan in the order of their writes, by their numbers among the site's outputs: first those that go with
/// no other, in the order of the site; and at the end, after each one whose write was acknowledged, those that go with it.
#[derive(Debug, Drop)]
pub struct WriteOrder {
    pub(crate) outputs: ArrayVec<usize, MOST_TAGS>,
}

impl WriteOrder {
    /// No output is in order yet.
    pub fn new() -> WriteOrder
        ensures { (result.outputs).items ≡ [] }
    {
        WriteOrder {
            outputs: ArrayVec::new(),
        }
    }

    /// The outputs, in order. After a scan over a link that didn't fail they are those that had their turn in it.
    pub fn outputs(&self) -> &[usize]
        ensures { result.now ≡ (self.now.outputs).items }
    {
        self.outputs.as_slice()
    }

    /// The output with this place in the order.
    pub(crate) fn get(&self, k: usize) -> Option<usize>
        ensures { result ≡ slice_get (self.now.outputs).items k }
    {
        match self.outputs.get(k) {
            Some(output) => Some(*output),
            None => None,
        }
    }

    /// The outputs of a site that go with no other, and none else.
    pub(crate) fn begin(&mut self, site: &Site)
        ensures { (self.new.outputs).items ≡ first_order site.now }
    {
        self.outputs.clear();
        self.add_those_with(site, None);
    }

    /// Once the write of an output was acknowledged, those that go with it are in order too.
    pub(crate) fn follow(&mut self, site: &Site, output: usize, taken: bool)
        ensures { (self.new.outputs).items ≡ after_turn site.now (self.old.outputs).items output taken }
    {
        if !taken {
            return;
        }
        if let Some(number) = site.outs().get(output) {
            self.add_those_with(site, Some(*number));
        }
    }

    /// Those outputs whose tag goes with this one come at the end.
    fn add_those_with(&mut self, site: &Site, leader: Option<usize>)
        ensures { (self.new.outputs).items ≡ take most_outputs ((self.old.outputs).items ++ outputs_with site.now leader) }
    {
        if self.outputs.is_full() {
            return;
        }
        for i in 0..site.outs().len() {
            if goes_with(site, tag_at(site, i), leader) {
                self.add(i);
            }
        }
    }

    /// One output more, where there is room.
    fn add(&mut self, output: usize)
        ensures { (self.new.outputs).items ≡ take most_outputs ((self.old.outputs).items ++ output ∷ []) }
    {
        if !self.outputs.is_full() {
            self.outputs.push(output);
        }
    }
}

/// The number of an output's tag.
fn tag_at(site: &Site, i: usize) -> usize
    requires { i < length site.now.outs }
    ensures { result ≡ slice_index_or site.now.outs i result }
{
    site.outs()[i]
}

/// Whether a tag goes with this one; where it is none, whether it goes with no other.
fn goes_with(site: &Site, number: usize, leader: Option<usize>) -> bool
    ensures { result ≡ same_tag leader (companion_at site.now.tags number) }
{
    match (leader, site.companion(number)) {
        (None, None) => true,
        (Some(leader), Some(companion)) => leader == companion,
        _ => false,
    }
}
