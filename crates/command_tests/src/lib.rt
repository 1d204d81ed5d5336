//! Tests of the commands, and of what they print with, by public calls. They stand in a crate of their own, since the tests
//! of a crate are proved with the whole crate once more.
#![tactic(auto)]

#[cfg(test)]
mod tests;
