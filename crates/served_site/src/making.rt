//! A service of an accepted program is made.
ghost use Rattle.std.specs.Prelude.{◌≡◌, IfErr, IfOk, OnOk, length, replicate};
ghost use Rattle.verifier.specs.Verified.{HasLinks};
ghost use Rattle.gateway.specs.declared.event_core.fault.CoreFault.TheVariants.{Foreign};
ghost use Rattle.service.specs.Cycle.{stage_of};
ghost use Rattle.service.specs.Identity.{SaysNothing};
ghost use Rattle.service.specs.Timing.{Starts};
ghost use Rattle.service.specs.Turning.{outputs_for};
ghost use Rattle.served_site.specs.Serving.{IsStart};

use commands::Accepted;
use gateway::CoreFault;
use scan_vm::Machine;
use service::{Identity, Limits, Service, Station};
use std::alloc::{AllocError, Global};

/// A service of an accepted program on its site, over so many connections, all of them down. `kept` has an entry for each of
/// the program's variables, in their order: a variable begins with the number that was kept of it, where that lies in its
/// declared range, and else with its start value. `stations` has an entry for each of the site's devices: where it is reached.
/// `read_back` says of each tag whether what its device shows of it is compared with what it took; of those without an entry it is.
/// `identities` says what each device must say of itself; of those without an entry nothing is asked.
/// The first round begins a period after 0. Foreign: the program was accepted for tags that the site doesn't have so; OutOfMemory: memory is refused.
pub fn service_of(
    alloc: Global,
    given: Accepted,
    kept: &[Option<i64>],
    links: usize,
    stations: &[Station],
    read_back: &[bool],
    identities: &[Option<Identity>],
    limits: Limits,
) -> Result<Service, CoreFault>
    ensures start { IfOk result (λ service. IsStart given.site given.verified kept.now (stage_of service.cycle)) }
    ensures matched { OnOk result (HasLinks given.site.tags given.verified.links) }
    ensures stations { IfOk result (λ service. service.lines.links.stations.items ≡ stations.now) }
    ensures numbers { IfOk result (λ service. service.lines.links.numbers.items ≡ replicate links 0) }
    ensures starts { IfOk result (λ service. Starts 0 limits service.side) }
    ensures places { IfOk result (λ service. length service.places.items ≡ limits.clients) }
    ensures outputs { IfOk result (λ service. service.side.outputs.items ≡ outputs_for read_back.now given.site.outs) }
    ensures identities { IfOk result (λ service. service.held.identities.wanted.items ≡ identities.now) }
    ensures unsaid { IfOk result (λ service. SaysNothing service.held.identities) }
    ensures foreign { IfErr result (λ e. e ≡ Foreign → HasLinks given.site.tags given.verified.links → ⊥) }
{
    let Accepted { site, verified } = given;
    let machine = match Machine::resume(alloc, verified, kept) {
        Ok(machine) => machine,
        Err(AllocError) => return Err(CoreFault::OutOfMemory),
    };
    Service::new(
        alloc, site, machine, links, stations, read_back, identities, limits, 0,
    )
}
