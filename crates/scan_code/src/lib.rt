//! The bytecode of a scan: its instructions, and the image that holds a program.
#![tactic(auto)]

pub mod decoding;
mod image;
mod image_fault;
mod image_names;
mod image_reader;
mod image_rules;
mod image_writer;
pub mod laws;
mod op;
mod spelling;
mod table;

// a program's image, and its bytes
pub use image::{Image, Tag};
pub use image_fault::ImageFault;
pub use point_types::Var;
// its instructions
pub use decoding::decode;
pub use op::Op;
// the rules that its parts keep
pub use image_names::have_names_of_their_own;
pub use image_rules::is_whole_if_bool;
