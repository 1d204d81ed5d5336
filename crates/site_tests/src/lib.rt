//! Tests of site files, of the readings of a site's tags, of what it wants of its devices, and of what lies below:
//! definitions of models, plant files, raw numbers of set points; by public calls. The tests of a crate are proved with
//! the whole crate once more, so these stand in a crate of their own.
#![tactic(auto)]

#[cfg(test)]
mod devices;
#[cfg(test)]
mod tests;
