//! The SunSpec information models' definitions: read from SunSpec's own JSON form, and the nine that are shipped.
#![tactic(auto)]

mod description;
mod fault;
pub mod laws;
mod model;
mod models;
mod part;
mod placing;
mod point;
mod point_object;
mod reader;
pub mod rules;

// a definition, read or shipped
pub use fault::DefFault;
pub use models::{shipped, shipped_models};
pub use part::DefPart;
pub use reader::{read, read_placed};
// what it says
pub use model::ModelDef;
pub use point::{Point, PointName, Points, Sf};
