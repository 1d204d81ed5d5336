//! The reader of Instruction List texts (IEC 61131-3 edition 2, 3.2): from a text to its tree.
#![tactic(auto)]

mod computation;
mod declaring;
mod draft;
mod fault;
mod instructing;
mod keyword;
pub mod laws;
mod lexeme;
mod lexer;
mod nest;
mod nesting;
mod numeral;
mod place;
mod reader;
mod scope;
mod spots;
mod stage;
mod state;
mod text;
mod token;
mod tree;
mod typing;

// from a text to its tree, or the first line at fault
pub use fault::{ReadFault, ReadFaultKind};
pub use place::{FaultPlace, fault_at};
pub use reader::read;
// the tree
pub use computation::Computation;
pub use tree::{Action, External, InnerLine, Operand, Program, Simple, Statement, Variable};
