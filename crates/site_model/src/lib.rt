//! A site: the gateway, its devices, its tags, and what it serves, as the site file says.
#![tactic(auto)]

mod access;
mod companions;
mod device;
mod device_numbers;
mod devices;
mod fault;
mod file;
mod fit;
mod gateway;
pub mod laws;
mod lengths;
mod lookups;
mod measures;
mod part;
pub mod readings;
pub mod registers;
pub mod rules;
mod served;
mod serving;
mod site;
mod sums;
mod tag;
mod tag_keys;
mod tag_rules;
mod tags;
mod text;
mod time_tag;
mod want;
pub mod wants;

// a site, read from its file
pub use fault::SiteFault;
pub use part::SitePart;
pub use site::Site;
// its devices
pub use device::{SiteDevice, WriteFunction};
// its tags
pub use access::Access;
pub use fit::Fit;
pub use tag::{Sf, SiteTag};
// what it asks of its devices
pub use want::Want;
// what it serves to clients
pub use served::{Served, Source};
pub use serving::raw_range;
// a text of the file, and the words of a block
pub use modbus_frame::Words;
pub use text::Text;
