//! A survey is made.
ghost use Rattle.std.specs.Prelude.{◌≡◌, [], false, replicate, IfOk};
ghost use Rattle.service.specs.Cycle.{stage_of};
ghost use Rattle.service.specs.Timing.{Starts};
ghost use Rattle.served_site.specs.Surveying.{IsSurveyStart};

use gateway::{CoreFault, DEPTH};
use scan_vm::Machine;
use service::{Limits, Service, Station};
use site_model::Site;
use std::alloc::Global;

/// Why there is no survey.
#[derive(Clone, Copy)]
pub enum NoSurvey {
    /// The site has outputs: a service of it would write to devices.
    HasOutputs,
    /// There is no core for the site and the program.
    NoCore(CoreFault),
}

/// A service of a site without outputs, over so many connections, all of them down, whose first round begins a period after
/// 0. `stations` has an entry for each of the site's devices: where it is reached. HasOutputs: the site has an output; NoCore:
/// the program was accepted for tags that the site doesn't have so, or memory is refused.
pub fn survey_of(
    alloc: Global,
    site: Site,
    machine: Machine<DEPTH>,
    links: usize,
    stations: &[Station],
    limits: Limits,
) -> Result<Service, NoSurvey>
    ensures start { IfOk result (λ service. IsSurveyStart site (stage_of service.cycle)) }
    ensures stations { IfOk result (λ service. service.lines.links.stations.items ≡ stations.now) }
    ensures numbers { IfOk result (λ service. service.lines.links.numbers.items ≡ replicate links 0) }
    ensures starts { IfOk result (λ service. Starts 0 limits service.side) }
{
    if has_outputs(&site) {
        return Err(NoSurvey::HasOutputs);
    }
    match Service::new(alloc, site, machine, links, stations, &[], &[], limits, 0) {
        Ok(service) => Ok(service),
        Err(fault) => Err(NoSurvey::NoCore(fault)),
    }
}

/// Whether a service of the site would write to devices.
fn has_outputs(site: &Site) -> bool
    ensures { result ≡ false → site.now.outs ≡ [] }
{
    match site.outs() {
        [] => false,
        [_, ..] => true,
    }
}
