//! Texts for people: notes on a line of a text, in the form that compilers use, where, what is wrong, the line with carets
//! under what is meant, and what to do ([`Note`]); texts in which no letter can pass for another line ([`escaped`]); values
//! as decimal numbers ([`decimal`]); and the name that may be meant ([`nearest_of`]).
#![tactic(auto)]

mod code;
mod decimals;
mod escaping;
mod marking;
mod nearest;
mod note;

pub use code::Code;
pub use decimals::decimal;
pub use escaping::{escaped, escaped_texts_are_plain, plain_letter, push_escaped, push_letter};
pub use marking::Mark;
pub use nearest::{Near, nearer, nearest_of, rank};
pub use note::Note;
