//! Tests of names and numbers, spans, bytecode and images, and of the way from a text to its image, by the public
//! calls of their crates. They stand in a crate of their own, since the tests of a crate are proved with the whole
//! crate once more.
#![tactic(auto)]

#[cfg(test)]
mod tests;
