//! What clients set is set again after a restart.
ghost use Rattle.std.specs.Prelude.{◌≡◌, IsTrue, Some, false, slice_set};
ghost use Rattle.gateway.specs.event_core.Control.{after_wait};
ghost use Rattle.gateway.specs.event_core.Restoring.{NothingSets};
ghost use Rattle.service.specs.Told.{Goes};
ghost use Rattle.service.specs.Cycle.{ClientsLeadOn, stage_of};
ghost use Rattle.service.specs.Stages.{Waits};
ghost use Rattle.service.specs.Staying.{Stays};

use crate::service_state::Service;

impl Service {
    /// Sets the site's tag of this number, as a client's write does, to a number in the unit of the tag's exponent; whether
    /// some client's write does so. Where none does nothing changes: the site has no such `set` tag, or no words of its
    /// point read as the number, exactly and in its range.
    pub fn restore(&mut self, tag: usize, number: i64) -> bool
        ensures rest { Stays self.old self.new }
        ensures lines { self.new.lines ≡ self.old.lines }
        ensures goes { ClientsLeadOn self.old.cycle self.new.cycle }
        ensures sets { IsTrue result → self.new.cycle.core.value.standing
            ≡ record self.old.cycle.core.value.standing {
              sets = slice_set self.old.cycle.core.value.standing.sets tag (Some number);
              ages = slice_set self.old.cycle.core.value.standing.ages tag (Some 0);
            } }
        ensures refused { result ≡ false → (self.new.cycle.core.value ≡ self.old.cycle.core.value) × NothingSets self.old.cycle.core.value.site tag number }
        ensures held { self.new.held ≡ self.old.held }
        ensures stands { Goes self.old.side self.new.side }
    {
        self.cycle.restore(tag, number)
    }

    /// So many milliseconds went by since what was set so far: it is older by them, and lapses where that is its time.
    pub fn pass(&mut self, elapsed: u32)
        ensures rest { Stays self.old self.new }
        ensures lines { self.new.lines ≡ self.old.lines }
        ensures waits { Waits elapsed (stage_of self.old.cycle) (stage_of self.new.cycle) }
        ensures passed { self.new.cycle.core.value ≡ after_wait elapsed self.old.cycle.core.value }
        ensures held { self.new.held ≡ self.old.held }
        ensures stands { Goes self.old.side self.new.side }
    {
        self.cycle.pass(elapsed);
    }
}
