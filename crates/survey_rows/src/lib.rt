//! The table of a survey: the site file as it is asked, and after its scan one row for each device, model that a device
//! lacks, input, output and served point, with what is wrong and what to do, and others for how often each device can be asked and
//! how long what is written lasts. What is wrong is computed as for alarms (service_alarms), what of an output's range can't be said
//! as writes are judged (point_writer, served_ranges), and which times are too short by a definition; of the words nothing is proved
//! except that they end and are safe.
#![tactic(auto)]

mod asked_text;
mod device_rows;
mod fitted_text;
mod handed_defs;
mod helps;
mod identity;
mod identity_rows;
mod input_rows;
mod lapse_rows;
mod output_rows;
mod pace_rows;
mod point_name;
mod range_text;
mod reversion;
mod reversion_rows;
mod row;
mod seen;
mod served_rows;
mod survey;
mod table;
mod units;

// the site file as a survey asks it
pub use asked_text::{AskedFault, asked_site};
// definitions that are handed in, and the units of points
pub use handed_defs::HandedDefs;
pub use units::unit_of;
// a text in quotes
pub use service_alarms::push_inside_quotes;
// the table
pub use survey::Survey;
pub use table::{SurveyTable, table_of};
