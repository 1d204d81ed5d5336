//! The points of the gateway's own map with their addresses and what each is of, and the register for which a client's write is
//! refused.
#![tactic(auto)]

mod refused;
mod row;
mod rows;

// the points with their addresses
pub use row::{MapRow, PointSubject};
pub use rows::{MapRows, map_rows};
// the register for which a write is refused
pub use refused::{RefusedRegister, refused_register};
