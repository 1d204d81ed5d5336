//! Files in words: the place at which one breaks a rule, with the entry, the key, what stands there, and what may
//! ([`place_in_site`]); and the keys that nothing reads ([`warnings_of_site`]). Which part of a file breaks a rule, its
//! reader proves; of what is told of that part nothing is proved but that it ends and is safe.
#![tactic(auto)]

mod brackets;
mod definition;
mod definition_keys;
mod finding;
mod keys;
mod looking;
mod models;
mod place;
mod plant;
mod points;
mod site;
mod table_keys;
mod unread_keys;
mod wording;

// the place of a fault, by the file
pub use definition::place_in_definition;
pub use plant::place_in_plant;
pub use site::place_in_site;
// what a place is, and how entries are named
pub use brackets::Single;
pub use finding::{EntryName, entry_named, named_entry};
pub use place::{EntryPlace, FilePlace};
pub use wording::entry_shown;
// the keys that nothing reads
pub use unread_keys::{warnings_of_definition, warnings_of_plant, warnings_of_site};
