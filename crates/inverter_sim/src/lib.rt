//! A simulator of inverters and meters: the registers of a plant that a file describes, served over links that may
//! misbehave.
#![tactic(auto)]

mod current;
mod device;
mod device_kind;
mod fault;
mod metering;
mod misbehaviour;
mod part;
mod place;
mod plant;
mod points;
mod reader;
pub mod rules;
mod series;
mod serving;
mod tick;
mod watts;
mod works;

// a plant of inverters and meters, and what one of its devices does wrong
pub use fault::PlantFault;
pub use misbehaviour::{Fault, Misbehaviour};
pub use part::PlantPart;
pub use plant::Plant;
// a plant on a link
pub use serving::serve_link;
// where a device's points lie, and which of them its ticks set
pub use place::RegisterPlace;
pub use points::{FlowPoints, InverterPoints, MeterPoints, Phases, Scale};
