//! The command `survey`: how the devices of a site stand, before its first start.
use crate::runtimes::LoopRuntime;
use crate::serve::{tell_no_core, tell_no_identities, tell_unreachable};
use crate::survey::survey_service::{NO_PROGRAM, asked, service_for};
use command_files::{tell_lost, warn_on_site};
use commands::definitions::definitions;
use commands::{CommandOutcome, accept, tell_no_memory, write_lines};
use modbus_frame::LinkFault;
use refusal_notes::Notes;
use served_site::NoSurvey;
use service::{Identity, Service};
use service_loop::{End, survey_site};
use service_texts::{Addresses, DeviceSource, addresses_of, identities_of};
use site_model::Site;
use std::alloc::{AllocError, Global};
use std::io::Write;
use survey_rows::{HandedDefs, Survey, table_of};

/// What is told where the site as it is asked would be written to: no text leads to that.
const HAS_OUTPUTS: &[u8] = b"refused: survey HasOutputs\n";

/// What a survey is of.
#[derive(Clone, Copy)]
pub struct SurveyRun<'n, 'a> {
    /// The files of the site, the program and the definitions, and whether a refusal is explained.
    pub notes: Notes<'n>,
    /// Whether there is a program, which is judged before.
    pub has_program: bool,
    pub devices: DeviceSource<'a>,
    /// How long a device may take to answer, in milliseconds.
    pub timeout: u64,
    /// The period of `serve` that the site is to have, in milliseconds.
    pub every: u32,
}

/// Looks at the devices of a site, writes nothing to them, and prints what it finds. Gives the status: 0 where nothing is
/// wrong, 1 where something is, for a refusal or a failed write, 2 where it isn't said where a device is, 3 where the clock or
/// a socket can't be had.
pub fn run_survey<R: LoopRuntime + Print, W: Write>(
    rt: &R,
    alloc: Global,
    run: &SurveyRun<'_, '_>,
    out: &mut W,
) -> u8 {
    let notes = &run.notes;
    let program = if run.has_program {
        notes.program
    } else {
        NO_PROGRAM
    };
    match accept(alloc, notes.site, program, notes.defs) {
        Ok(Ok(given)) => survey_accepted(rt, alloc, run, &given.site, out),
        Ok(Err(outcome)) => tell_refused(rt, notes, &outcome, out),
        Err(AllocError) => tell_no_memory(out),
    }
}

/// Prints why a text is refused, and explains it on standard error. Gives the status.
pub(crate) fn tell_refused<R: Eprint + AllocGlobal, W: Write>(
    rt: &R,
    notes: &Notes<'_>,
    outcome: &CommandOutcome,
    out: &mut W,
) -> u8 {
    let status = outcome.tell(out);
    notes.explain(rt, &outcome.cause);
    status
}

/// Surveys a site that its file describes.
fn survey_accepted<R: LoopRuntime + Print, W: Write>(
    rt: &R,
    alloc: Global,
    run: &SurveyRun<'_, '_>,
    site: &Site,
    out: &mut W,
) -> u8 {
    match addresses_of(alloc, run.devices, run.notes.site, site.devices()) {
        Ok(addresses) => survey_told(rt, alloc, run, site, &addresses, out),
        Err(fault) => tell_unreachable(rt, alloc, site, fault, out),
    }
}

/// Surveys a site of which it is known where its devices are.
fn survey_told<R: LoopRuntime + Print, W: Write>(
    rt: &R,
    alloc: Global,
    run: &SurveyRun<'_, '_>,
    site: &Site,
    addresses: &Addresses,
    out: &mut W,
) -> u8 {
    match identities_of(alloc, run.notes.site) {
        Ok(identities) => {
            warn_on_site(rt, &run.notes, site);
            let plan = SurveyPlan {
                site,
                addresses,
                identities: identities.as_slice(),
            };
            survey_at(rt, alloc, run, &plan, out)
        }
        Err(fault) => tell_no_identities(rt, alloc, site, fault, out),
    }
}

/// What the site file says of the devices that are looked at.
#[derive(Clone, Copy)]
struct SurveyPlan<'a> {
    site: &'a Site,
    addresses: &'a Addresses,
    identities: &'a [Option<Identity>],
}

fn survey_at<R: LoopRuntime + Print, W: Write>(
    rt: &R,
    alloc: Global,
    run: &SurveyRun<'_, '_>,
    plan: &SurveyPlan<'_>,
    out: &mut W,
) -> u8 {
    match asked(alloc, &run.notes) {
        Ok(Ok(given)) => match service_for(alloc, run, given, plan.addresses) {
            Ok(mut service) => survey_by(rt, alloc, run, plan, &mut service, out),
            Err(fault) => tell_none(alloc, fault, out),
        },
        Ok(Err(outcome)) => tell_refused(rt, &run.notes, &outcome, out),
        Err(AllocError) => tell_no_memory(out),
    }
}

fn tell_none<W: Write>(alloc: Global, fault: NoSurvey, out: &mut W) -> u8 {
    match fault {
        NoSurvey::HasOutputs => write_lines(out, HAS_OUTPUTS, 1),
        NoSurvey::NoCore(fault) => tell_no_core(alloc, fault, out),
    }
}

/// Surveys a site by a service that reads it.
fn survey_by<R: LoopRuntime, W: Write>(
    rt: &R,
    alloc: Global,
    run: &SurveyRun<'_, '_>,
    plan: &SurveyPlan<'_>,
    service: &mut Service,
    out: &mut W,
) -> u8 {
    match survey_site(rt, alloc, plan.addresses.links.as_slice(), service) {
        Ok(()) => tell_table(alloc, run, plan, service, out),
        Err(End::OutOfMemory) => tell_no_memory(out),
        Err(_) => tell_lost(rt, alloc, &run.notes, LinkFault::Read, out),
    }
}

fn tell_table<W: Write>(
    alloc: Global,
    run: &SurveyRun<'_, '_>,
    plan: &SurveyPlan<'_>,
    service: &Service,
    out: &mut W,
) -> u8 {
    let Ok(models) = definitions(alloc, run.notes.defs) else {
        return tell_no_memory(out);
    };
    let Ok(handed) = HandedDefs::read(alloc, run.notes.defs) else {
        return tell_no_memory(out);
    };
    let survey = Survey {
        service,
        site: plan.site,
        models: models.as_slice(),
        handed: &handed,
        addresses: plan.addresses,
        identities: plan.identities,
        every: run.every,
    };
    match table_of(alloc, &survey) {
        Ok(table) => {
            let status = if table.wrong == 0 { 0 } else { 1 };
            write_lines(out, table.text.as_bytes(), status)
        }
        Err(AllocError) => tell_no_memory(out),
    }
}
