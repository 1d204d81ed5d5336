//! The assembler of Instruction List (IEC 61131-3 edition 2, 3.2): from the tree of a program to its image.
#![tactic(auto)]

mod assembler;
mod check;
mod emit;
mod fault;
mod jumps;
pub mod laws;
mod limits;
mod line_table;
mod measure;
mod misfit;
mod names;
mod passing;
mod places;
mod scope;
mod source;
mod typing;
mod uses;

pub use assembler::assemble;
pub use fault::{AsmFault, AsmFaultKind};
pub use line_table::instruction_lines;
pub use misfit::{Literal, first_misfit};
