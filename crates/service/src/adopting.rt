//! Another accepted program is put in for the one that runs.
ghost use Rattle.std.specs.Prelude.{◌≡◌, IfErr, OnOk};
ghost use Rattle.verifier.specs.Verified.{HasLinks};
ghost use Rattle.gateway.specs.declared.event_core.fault.CoreFault.TheVariants.{Foreign, OutOfMemory};
ghost use Rattle.service.specs.Cycle.{stage_of};
ghost use Rattle.service.specs.Stages.{Adopts};
ghost use Rattle.service.specs.Told.{Goes};
ghost use Rattle.service.specs.Staying.{Stays};

use crate::cycle::Cycle;
use crate::service_state::Service;
use gateway::{CoreFault, DEPTH};
use scan_vm::Machine;
use std::alloc::Global;

impl Cycle {
    /// From the next scan on this machine's program runs, with its variables as they stand. Foreign: the program was accepted
    /// for tags that the site doesn't have so; that comes before memory is asked for. Where it fails nothing changes.
    #[tactic(auto, using(crate::proofs::Courses::adopted_site, crate::proofs::Courses::adopted_stage, crate::proofs::Courses::adopted_reached, crate::proofs::Courses::adopted_kept))]
    pub fn adopt(&mut self, alloc: Global, machine: Machine<DEPTH>) -> Result<(), CoreFault>
        ensures adopted { OnOk result (Adopts machine (stage_of self.old) (stage_of self.new)) }
        ensures kept { IfErr result (λ e. stage_of self.new ≡ stage_of self.old) }
        ensures searches { self.new.searches ≡ self.old.searches }
        ensures over { self.new.over ≡ self.old.over }
        ensures foreign { IfErr result (λ e. e ≡ Foreign → HasLinks self.old.core.value.site.tags machine.accepted.links → ⊥) }
        ensures memory { IfErr result (λ e. e ≡ OutOfMemory → HasLinks self.old.core.value.site.tags machine.accepted.links) }
    {
        self.core.adopt(alloc, machine)
    }
}

impl Service {
    /// From the next scan on this machine's program runs, with its variables as they stand. No connection ends, and what is
    /// known, set and planned stays, as does the round that is under way. Foreign: the program was accepted for tags that the
    /// site doesn't have so; OutOfMemory: memory is refused. Where it fails nothing changes.
    pub fn adopt(&mut self, alloc: Global, machine: Machine<DEPTH>) -> Result<(), CoreFault>
        ensures adopted { OnOk result (Adopts machine (stage_of self.old.cycle) (stage_of self.new.cycle)) }
        ensures kept { IfErr result (λ e. stage_of self.new.cycle ≡ stage_of self.old.cycle) }
        ensures searches { self.new.cycle.searches ≡ self.old.cycle.searches }
        ensures over { self.new.cycle.over ≡ self.old.cycle.over }
        ensures side { self.new.side ≡ self.old.side }
        ensures held { self.new.held ≡ self.old.held }
        ensures rest { Stays self.old self.new }
        ensures lines { self.new.lines ≡ self.old.lines }
        ensures stands { Goes self.old.side self.new.side }
        ensures foreign { IfErr result (λ e. e ≡ Foreign → HasLinks self.old.cycle.core.value.site.tags machine.accepted.links → ⊥) }
        ensures memory { IfErr result (λ e. e ≡ OutOfMemory → HasLinks self.old.cycle.core.value.site.tags machine.accepted.links) }
    {
        self.cycle.adopt(alloc, machine)
    }
}
