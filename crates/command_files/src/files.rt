//! What is read of files and standard input, and why a file that is written isn't whole.
mod definition_folder;
mod kept_program;
mod source;
mod write_fault;

pub use definition_folder::{definitions_in, warn_of_none};
pub use kept_program::read_kept_program;
pub(crate) use source::read_text;
pub use source::{STANDARD_INPUT, SourceFault, read_again, read_file, read_kept};
pub use write_fault::WriteFault;
