//! Tests of the verifier, of the machines that run what it accepts, and of the gateway where memory is refused and over links of
//! a kind of their own, by their public calls. They stand in a crate of their own, since the tests of a crate are proved with
//! the whole crate once more.
#![tactic(auto)]

#[cfg(test)]
mod runs;
#[cfg(test)]
mod served;
#[cfg(test)]
mod tests;
#[cfg(test)]
mod worked;
