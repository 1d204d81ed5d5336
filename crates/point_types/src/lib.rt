//! What every crate of the gateway shares: the types of Instruction List, the kinds of SunSpec points, and readings.
#![tactic(auto)]

mod encoding;
mod form;
mod il_type;
mod items;
mod keyword;
mod kind;
pub mod laws;
mod name;
mod operator;
mod reading;
mod scaling;
mod variable;
mod words;

// a point: its kind, its words, its value, and what it reads as
pub use encoding::{Unencodable, encode};
pub use form::numbers_held;
pub use kind::Kind;
pub use reading::{Cause, Reading};
pub use scaling::{Rescaled, rescale, scale_factor, scaled, scaled_down};
pub use words::{number, value};
// a variable of Instruction List, its type and its name
pub use il_type::IlType;
pub use name::{Name, lower_case};
pub use operator::{Condition, Operator};
pub use variable::Var;
// lists of what has a name
pub use items::Items;
