//! What a service over sockets reads and writes as text, and what it is told: where a site file says that devices are, who
//! may write, how long is waited, the files of set values and of the kept program, what clients set, the start, and its lines
//! and how often they come.
#![tactic(auto)]

mod addresses;
mod clock_times;
mod device_places;
mod digits;
mod hit;
mod identities;
mod kept_program;
mod lapsing_lines;
mod lines;
mod naming;
mod number;
mod rating;
mod ration;
mod reaching;
mod reading_back;
mod retain_pace;
mod retaining;
mod settings;
mod share;
mod sleeping;
mod start;
mod state_lines;
mod told;
mod waiting;
mod write_record;
mod writers;

// where the devices are
pub use addresses::{Addresses, has_port};
pub use device_places::{AddressFault, DevicePlace, read_places};
pub use reaching::{DeviceSource, DevicesFault, addresses_of, devices_of, plant_addresses};
// which devices sleep
pub use reading_back::{ReadBackFault, read_back_tags};
pub use sleeping::{SleepFault, sleeping_hours};
// what devices must say of themselves
pub use identities::{IdentityFault, IdentityKey, identities_of};
// what a site is called, and for which powers devices are made
pub use naming::{SiteNameFault, site_name};
pub use rating::{RatedFault, rated_powers};
// which clients may write
pub use writers::{Writer, WriterFault, may_write, writers_of};
// how long is waited
pub use waiting::limits;
// what is kept over a restart
pub use kept_program::{kept_program_text, program_in, program_path};
pub use lapsing_lines::{AgedSetting, aged_settings, aged_text, lasting_settings, time_in};
pub use retain_pace::RetainPace;
pub use retaining::{
    KeptNumber, RetainFault, is_among, kept_by, kept_numbers, retained_names, variables_text,
};
pub use state_lines::{KeptSetting, StateLine, setting_in, state_line, state_text, tag_named};
pub use write_record::WriteRecord;
// what is told of a service
pub use lines::{
    agrees_line, client_line, device_line, differs_line, file_line, late_line, left_out_line,
    left_out_setting_line, listening_line, lost_line, program_kept_line, program_refused_line,
    program_taken_line, stamped, unwritten_line, written_line,
};
// what clients set, and what a number that is refused would have been
pub use hit::{RefusedNumber, refused_number};
pub use settings::{Change, KnownSettings};
pub use told::{
    lapsed_line, number_text, point_text, refused_more_line, refused_text, register_text, set_line,
};
// how often something is told of one address
pub use ration::{Over, Ration};
pub use share::{Share, address_of, key_of};
// the time of day, and which program runs on which texts
pub use clock_times::{Times, time_of_day, timed_line, times_of};
pub use digits::digits_of;
pub use start::Start;
