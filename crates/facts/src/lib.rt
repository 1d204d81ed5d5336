//! What is known before an instruction of a program ([`Fact`]), and what it makes of it: which numbers a
//! value may be ([`span`]), what follows from a truth ([`consequences`]), and what flows on from each
//! instruction ([`flow`]) or why it is refused ([`refusal`]).
//!
//! [`Fact`]: fact::Fact
#![tactic(auto)]

pub mod abstract_value;
pub mod changed_spans;
mod consequences;
pub mod context;
mod deferred;
pub mod fact;
mod flow;
pub mod instructions;
pub mod operand;
mod parts;
pub mod present_inputs;
pub mod refusal;
pub mod span;
mod sparse_list;
pub mod tag_range;

pub use fact::Fact;
pub use refusal::{Refusal, RefusalKind, RefusedAt};
pub use tag_range::TagRange;
