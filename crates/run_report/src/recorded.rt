//! What is recorded of a run.

/// What a run was of, and what its scans read, stored and wrote.
#[derive(Drop)]
pub struct RunReport {
    pub site: RunFile,
    pub program: RunFile,
    /// The path of the plant file.
    pub plant: String,
    /// How many scans there were to be.
    pub scans: u32,
    /// The milliseconds from a scan to the next one.
    pub every: u32,
    /// How many instructions a scan may take.
    pub budget: u32,
    /// How many each scan took: there are as many scans as samples.
    pub steps: ScanSeries,
    /// The names of the devices, in the order of the site file.
    pub devices: Vec<String>,
    pub series: Vec<ScanSeries>,
    /// What clients were to set and couldn't, in the order in which it was found.
    pub unset: Vec<Unset>,
}

/// What no client could set.
#[derive(Drop)]
pub struct Unset {
    /// The number of the scan before which it was to be set, counted from 1.
    pub scan: u32,
    /// The name of the tag.
    pub name: String,
    /// The number, in the unit of the tag's exponent; None where a client was to fall silent.
    pub said: Option<i64>,
    /// Why it wasn't set.
    pub why: &'static str,
}

/// A file that a run was of.
#[derive(Drop)]
pub struct RunFile {
    pub path: String,
    /// The first digits of its hash.
    pub digits: String,
}

/// A line of numbers, of which each scan has one or none.
#[derive(Drop)]
pub struct ScanSeries {
    pub name: String,
    pub role: Role,
    /// The place of its device in the report's list; None for what is of no device.
    pub device: Option<usize>,
    pub measure: Measure,
    /// The unit of its values; empty where they have none, or it isn't known.
    pub unit: String,
    /// Its numbers count this power of ten.
    pub exponent: i8,
    /// The least number that it may have.
    pub low: i64,
    /// The greatest one.
    pub high: i64,
    /// What it was in each scan.
    pub samples: Vec<Sample>,
}

/// What a line of numbers is of.
#[derive(Clone, Copy, PartialEq, Eq)]
pub enum Role {
    /// A tag that is read from a device.
    Input,
    /// A tag that clients set.
    Setting,
    /// A tag that reads the time since the scan before.
    Time,
    /// A tag that is written to a device.
    Output,
    /// A tag that clients read.
    Shown,
    /// A variable of the program.
    Variable,
    /// The instructions that the program took.
    Steps,
}

/// What a line of numbers measures, as far as lines are drawn in one chart by it.
#[derive(Clone, Copy, PartialEq, Eq)]
pub enum Measure {
    /// The power that its device gives.
    Power,
    /// The limit that is written for that power.
    Limit,
    /// Anything else.
    Other,
}

/// What a line of numbers was in a scan.
#[derive(Clone, Copy)]
pub enum Sample {
    Number(i64),
    /// It had no number of its own, for this cause, and this one was in its place.
    Default(i64, &'static str),
    /// It had none, for this cause.
    Missing(&'static str),
    /// It was stored and wasn't written, for this cause.
    Unwritten(i64, &'static str),
}

impl Sample {
    /// The number that was read or stored.
    pub(crate) fn own_number(self) -> Option<i64> {
        match self {
            Sample::Number(n) | Sample::Unwritten(n, _) => Some(n),
            Sample::Default(_, _) | Sample::Missing(_) => None,
        }
    }

    /// The number that was in the place of a missing one.
    pub(crate) fn default_number(self) -> Option<i64> {
        match self {
            Sample::Default(n, _) => Some(n),
            _ => None,
        }
    }
}
