//! The page of a run: one file of HTML that needs nothing else, with a chart of each tag and variable that changed over the
//! scans, and a table of what happened. Of names and paths it is proved how each letter is
//! written, and that none begins a tag or ends a value; of a chart, that the places of numbers and scans lie within it; of all
//! else that it ends and is safe.
#![tactic(auto)]

mod amounts;
mod axis;
mod chart;
mod coordinates;
mod curve;
mod events;
mod frame;
mod groups;
mod html;
mod marks;
mod numbers;
mod page;
mod recorded;
mod remarks;
mod sheet;
mod spans;
mod still;
mod style;
mod table;
mod ticks;

// what a run was
pub use recorded::{Measure, Role, RunFile, RunReport, Sample, ScanSeries, Unset};
// its page
pub use page::page_of;
// a text in HTML
pub use html::{push_html, texts_have_no_marks};
