//! What is warned of beside an acceptance, and what its warnings know.
mod identities;
mod line;
mod rated_powers;
mod read_back;
mod retained_names;
mod short_lapses;
mod shown;
mod site_name;
mod sleeping_hours;
mod unreached;

pub use identities::why_no_identities;
pub use line::device_fault;
pub use rated_powers::why_no_powers;
pub use read_back::why_no_read_back;
pub use retained_names::{variables_of, warn_of_names, why_unretained};
pub use short_lapses::warn_of_short_lapses;
pub use shown::{warn_beside, warn_of_site, warn_on_site};
pub use site_name::why_no_name;
pub use sleeping_hours::why_no_hours;
