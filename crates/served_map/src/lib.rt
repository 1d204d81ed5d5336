//! What the gateway serves, register by register, as it is handed to those who read and write it: the table of `map`. Its rows are
//! those of served_rows, which are proved to be what clients are served; of the words nothing is proved except that they end and
//! are safe.
#![tactic(auto)]

mod cells;
mod columns;
mod forms;
mod page;

pub use cells::MapOf;
pub use forms::{MapForm, text_of};
