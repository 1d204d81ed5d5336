//! The service of a survey, which reads a site as it is asked.
use crate::survey::survey_run::SurveyRun;
use commands::{Accepted, CommandOutcome, accept};
use file_keys::TomlFile;
use gateway::CoreFault;
use refusal_notes::Notes;
use scan_vm::Machine;
use served_site::{NoSurvey, survey_of};
use service::Service;
use service_loop::survey_limits;
use service_texts::Addresses;
use std::alloc::{AllocError, Global};
use survey_rows::{AskedFault, asked_site};

/// The program of a survey: it does nothing.
pub(crate) const NO_PROGRAM: &str = "PROGRAM survey\nEND_PROGRAM\n";

/// The site as it is asked, with the program that does nothing. Where it has no room for tags on the common models, or no
/// definition has the point that they are on, it goes without them.
pub(crate) fn asked(
    alloc: Global,
    notes: &Notes<'_>,
) -> Result<Result<Accepted, CommandOutcome>, AllocError> {
    match asked_with(alloc, notes, true) {
        Ok(Err(_)) => asked_with(alloc, notes, false),
        asked => asked,
    }
}

fn asked_with(
    alloc: Global,
    notes: &Notes<'_>,
    identities: bool,
) -> Result<Result<Accepted, CommandOutcome>, AllocError> {
    match asked_site(alloc, notes.site.text(), identities) {
        Ok(text) => {
            let site = TomlFile::parse(alloc, text.as_str())?;
            accept(alloc, &site, NO_PROGRAM, notes.defs)
        }
        Err(AskedFault::NoSite) => accept(alloc, notes.site, NO_PROGRAM, notes.defs),
        Err(AskedFault::OutOfMemory) => Err(AllocError),
    }
}

/// A service that reads the site as it is asked.
pub(crate) fn service_for(
    alloc: Global,
    run: &SurveyRun<'_, '_>,
    given: Accepted,
    addresses: &Addresses,
) -> Result<Service, NoSurvey> {
    let Accepted { site, verified } = given;
    match Machine::new(alloc, verified) {
        Ok(machine) => survey_of(
            alloc,
            site,
            machine,
            addresses.links.len(),
            addresses.stations.as_slice(),
            survey_limits(run.timeout),
        ),
        Err(AllocError) => Err(NoSurvey::NoCore(CoreFault::OutOfMemory)),
    }
}
