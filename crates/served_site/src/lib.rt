//! A service of an accepted program on its site: each of its scans computes what the program's text means, on the blocks that
//! were told of its devices. And a survey, a service of a site without outputs: all that it asks of devices are reads.
#![tactic(auto)]

pub mod laws;
mod making;
mod replacing;
mod surveying;

pub use making::service_of;
pub use replacing::replace_program;
pub use surveying::{NoSurvey, survey_of};
