//! The command `survey`: how the devices of a site stand, before its first start.
mod survey_run;
mod survey_service;

pub(crate) use survey_run::tell_refused;
pub use survey_run::{SurveyRun, run_survey};
pub(crate) use survey_service::NO_PROGRAM;
