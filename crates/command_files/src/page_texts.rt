//! What the page of a service is told once, as JSON: the site, and the program that runs.
mod listed;
mod members;
mod site_part;

pub use listed::program_text;
pub use site_part::{SitePart, site_text, tag_units};
