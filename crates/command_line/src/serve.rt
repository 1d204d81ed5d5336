//! The command `serve`: a service on a site, and why there is none.
mod last_program;
mod open_writers;
mod page_parts;
mod program_file;
mod refused_words;
mod refusing;
mod retained;
mod served_keys;
mod service_run;
mod short_history;
mod unkept;

pub use last_program::RefusedText;
pub(crate) use refusing::{tell_no_core, tell_no_identities, tell_unreachable};
pub use service_run::{ServiceRun, run_service};
pub(crate) use unkept::tell_unkept;
