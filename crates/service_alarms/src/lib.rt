//! What is wrong now at a site that is served: one list, which the core and what a service says of its devices and outputs
//! make, and since when each of it is so. Lines and the status file tell it in words.
#![tactic(auto)]

mod alarm;
mod changes;
mod devices;
mod exceptions;
mod fitted;
mod inputs;
mod labels;
mod lapses;
mod lines;
mod mending;
mod met;
mod names;
mod origins;
mod outputs;
mod places;
mod points;
mod said;
mod sentences;
mod served;
mod shown_numbers;
mod sleeping;
mod standing;
mod what_to_do;
mod words;
mod wrong;

// what is wrong
pub use alarm::{Alarm, AlarmSubject, Hidden};
pub use devices::{is_amiss, is_gone, is_lacking};
pub use fitted::fitted_number;
pub use met::{MetNumber, met_at, met_of};
pub use wrong::{Seen, missing_now, wrong_now};
// what follows from the sleep of devices
pub use sleeping::{Sleep, Slept, leave_out_sleepers};
// since when
pub use standing::{StandingAlarm, Watch};
// what changed
pub use changes::Changes;
// what devices say of themselves
pub use labels::{label_text, push_inside_quotes, push_label};
pub use said::{Said, another_text, is_said};
// in words
pub use lines::{begun_line, lacks_text, missing_text, over_line, refuses_text, unwritten_text};
pub use mending::mend;
pub use names::{device_name, output_name, tag_name};
pub use points::shown_point;
pub use sentences::{push_models, sentence, why_hidden, why_missing};
pub use shown_numbers::shown_number;
pub use what_to_do::advice;
pub use words::{
    cause_text, kind_word, loss_word, missing_word, name_text, subject_text, unwritten_word,
};
