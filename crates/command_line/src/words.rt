//! What the words of a command line may be, and what they say.
mod arguments;
mod command_words;
mod help;
mod map_words;
mod overwritten;
mod serve_words;
mod standard_input;
mod survey_words;
mod telling;

pub use arguments::command;
pub(crate) use command_words::{file_command, probe_address};
pub(crate) use help::version;
pub(crate) use map_words::map_form;
pub(crate) use overwritten::{is_no_state, misuse_of_definitions, misuse_of_files};
pub(crate) use serve_words::{Misuse, keeping_of, service_limits, service_words, serving_of};
pub(crate) use standard_input::misuse;
pub(crate) use survey_words::survey_devices;
pub(crate) use telling::{tell_misuse, tell_unparsed};
