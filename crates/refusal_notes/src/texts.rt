//! What people are told of each kind of refusal, in a file for each enum of kinds.
mod assembly;
mod definition;
mod link;
mod output;
mod plant;
mod reading;
mod site;
mod trap;
mod verdict;

pub use output::unwritten_help;
