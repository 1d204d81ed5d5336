//! A program is put in for the one that a service runs.
ghost use Rattle.std.specs.Prelude.{◌≡◌, ◌<◌, IfErr, IfOk, IfSome, OnOk, length};
ghost use Rattle.std.specs.List.{position};
ghost use Rattle.verifier.specs.Verified.{HasLinks};
ghost use Rattle.gateway.specs.declared.event_core.fault.CoreFault.TheVariants.{Foreign, OutOfMemory};
ghost use Rattle.scan_vm.specs.Resuming.{resumed};
ghost use Rattle.service.specs.Cycle.{stage_of};
ghost use Rattle.service.specs.Stages.{Adopts};
ghost use Rattle.service.specs.Told.{Goes};
ghost use Rattle.served_site.specs.Replacing.{carried, is_same, number_of};

use gateway::{CoreFault, DEPTH};
use point_types::Var;
use scan_vm::Machine;
use service::Service;
use std::alloc::{AllocError, Global};
use verifier::Verified;

/// Another program, which was accepted for the site, is put in for the one that a service runs: it runs from the next scan on.
/// Each of its variables begins with the number of the variable of the same name and type, where there is one and the number
/// lies in the new declared range, and else with its start value. No connection ends, and what is known, set and planned
/// stays. Foreign: the program was accepted for tags that the site doesn't have so; OutOfMemory: memory is refused. Where it
/// fails the old program goes on as it was.
pub fn replace_program(
    alloc: Global,
    service: &mut Service,
    verified: Verified<DEPTH>,
) -> Result<(), CoreFault>
    ensures adopted { OnOk result (Adopts (resumed verified (carried verified.image.vars service.old.cycle.core.value.machine.accepted.image.vars service.old.cycle.core.value.standing.variables)) (stage_of service.old.cycle) (stage_of service.new.cycle)) }
    ensures kept { IfErr result (λ e. stage_of service.new.cycle ≡ stage_of service.old.cycle) }
    ensures searches { service.new.cycle.searches ≡ service.old.cycle.searches }
    ensures over { service.new.cycle.over ≡ service.old.cycle.over }
    ensures side { service.new.side ≡ service.old.side }
    ensures held { service.new.held ≡ service.old.held }
    ensures links { service.new.lines.links ≡ service.old.lines.links }
    ensures lines { service.new.lines ≡ service.old.lines }
    ensures places { service.new.places.items ≡ service.old.places.items }
    ensures time { service.new.side.now ≡ service.old.side.now }
    ensures stands { Goes service.old.side service.new.side }
    ensures foreign { IfErr result (λ e. e ≡ Foreign → HasLinks service.old.cycle.core.value.site.tags verified.links → ⊥) }
{
    let kept = match carried(alloc, &verified, service) {
        Ok(kept) => kept,
        Err(AllocError) => return Err(CoreFault::OutOfMemory),
    };
    match Machine::resume(alloc, verified, kept.as_slice()) {
        Ok(machine) => service.adopt(alloc, machine),
        Err(AllocError) => Err(CoreFault::OutOfMemory),
    }
}

/// What goes over to each variable of a program from those of the one that runs.
fn carried(
    alloc: Global,
    verified: &Verified<DEPTH>,
    service: &Service,
) -> Result<Vec<Option<i64>>, AllocError>
    ensures { IfOk result (λ kept. kept.items ≡ carried verified.now.image.vars service.now.cycle.core.value.machine.accepted.image.vars service.now.cycle.core.value.standing.variables) }
{
    carried_from(
        alloc,
        verified.image().vars.as_slice(),
        service.core().machine(),
    )
}

fn carried_from(
    alloc: Global,
    vars: &[Var],
    machine: &Machine<DEPTH>,
) -> Result<Vec<Option<i64>>, AllocError>
    ensures { IfOk result (λ kept. kept.items ≡ carried vars.now machine.now.accepted.image.vars machine.now.variables) }
{
    let mut kept = Vec::with_capacity(alloc, vars.len())?;
    for var in vars {
        kept.push(number_of(machine, var))?;
    }
    Ok(kept)
}

/// The number of the machine's variable that is of the same name and type.
fn number_of(machine: &Machine<DEPTH>, var: &Var) -> Option<i64>
    ensures { result ≡ number_of machine.now.accepted.image.vars machine.now.variables var.now }
{
    let place = place_of(machine.verified().image().vars.as_slice(), var)?;
    Some(machine.var(place))
}

/// The place of the variable that is of the same name and type.
fn place_of(vars: &[Var], var: &Var) -> Option<usize>
    ensures place { result ≡ position (is_same var.now) vars.now }
    ensures within { IfSome result (λ i. i < length vars.now) }
{
    vars.iter().position(|old| is_same(var, old))
}

/// Whether two variables are of one name and one type.
fn is_same(var: &Var, other: &Var) -> bool
    ensures { result ≡ is_same var.now other.now }
{
    var.name.as_str() == other.name.as_str() && var.kind == other.kind
}
