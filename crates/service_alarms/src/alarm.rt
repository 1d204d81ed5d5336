//! Something that is wrong.
ghost use Rattle.std.specs.Prelude.{◌≡◌, Decides};
ghost use Rattle.service_alarms.specs.Changing.{subject_of};

use point_types::Cause;
use service::{Difference, Loss, Unwritten};
use site_model::Want;

/// Why a point of the gateway's own doesn't show what it is to, by the first cause that holds.
#[derive(Clone, Copy, Debug, PartialEq, Eq)]
pub enum Hidden {
    /// This part of the sum, by its number among the tags, has no value of its own; of a partial sum the first, where none has one.
    Part(usize),
    /// The program stored nothing.
    NotStored,
    /// There is no scale factor that is served.
    BadScale,
    /// No raw number is the value by that factor.
    Inexact,
    /// The value lies outside what the point's words hold, or it is the one that says that there is none.
    OutOfType,
}

/// Something that is wrong. Devices, tags and outputs are told by their numbers in the site.
#[derive(Clone, Copy, Debug, PartialEq, Eq)]
pub enum Alarm {
    /// A device is lost, and why.
    DeviceLost(usize, Option<Loss>),
    /// A device that isn't lost has no map, or it isn't known so far whether it is the right one.
    DeviceUnmapped(usize),
    /// A device that answers is another one than the site file says.
    DeviceAnother(usize),
    /// The map of a device lacks a model that the site wants of it.
    ModelMissing(Want),
    /// An `in` tag had no value of its own in the last scan, and why.
    InputMissing(usize, Cause),
    /// An output, by its number among the `out` tags, isn't written, and why.
    OutputUnwritten(usize, Unwritten),
    /// A device shows an output, by the same number, otherwise than it took it.
    OutputDiffers(usize, Difference),
    /// What clients set a tag to has lapsed: none wrote it again in its time.
    SetLapsed(usize),
    /// A tag that lapses has never been set, for as long as what was set at the start would have held.
    NeverSet(usize),
    /// A point that shows a sum, by the number of its entry in the site file, doesn't show it, and why.
    SumHidden(usize, Hidden),
    /// The point of a `site` tag doesn't show what the program stores, and why.
    StoredHidden(usize, Hidden),
    /// A round began late within the last minute.
    RoundLate,
    /// The file of set values can't be written.
    StateUnwritten,
    /// The program's file has a program that isn't accepted; the one before it goes on.
    ProgramRefused,
}

/// What an alarm is of. Two alarms of one subject tell of one thing, for causes that may differ.
#[derive(Clone, Copy, Debug, PartialEq, Eq, Hash)]
pub enum AlarmSubject {
    /// The device of this number.
    Device(usize),
    /// A model of a device.
    Model(Want),
    /// The tag of this number, as an input.
    Input(usize),
    /// The output of this number.
    Output(usize),
    /// The output of this number, as its device shows it.
    ReadBack(usize),
    /// The tag of this number, as one that clients set.
    Set(usize),
    /// The point of the entry of this number.
    Sum(usize),
    /// The point of the `site` tag of this number.
    Stored(usize),
    /// The times of the rounds.
    Rounds,
    /// The file of set values.
    State,
    /// The program's file.
    Program,
}

impl Alarm {
    /// What it is of.
    pub fn subject(self) -> AlarmSubject
        ensures { result ≡ subject_of self }
    {
        match self {
            Alarm::DeviceLost(device, _)
            | Alarm::DeviceUnmapped(device)
            | Alarm::DeviceAnother(device) => AlarmSubject::Device(device),
            Alarm::ModelMissing(want) => AlarmSubject::Model(want),
            Alarm::InputMissing(tag, _) => AlarmSubject::Input(tag),
            Alarm::OutputUnwritten(output, _) => AlarmSubject::Output(output),
            Alarm::OutputDiffers(output, _) => AlarmSubject::ReadBack(output),
            Alarm::SetLapsed(tag) | Alarm::NeverSet(tag) => AlarmSubject::Set(tag),
            Alarm::SumHidden(entry, _) => AlarmSubject::Sum(entry),
            Alarm::StoredHidden(tag, _) => AlarmSubject::Stored(tag),
            Alarm::RoundLate => AlarmSubject::Rounds,
            Alarm::StateUnwritten => AlarmSubject::State,
            Alarm::ProgramRefused => AlarmSubject::Program,
        }
    }
}

/// Whether two alarms are one, with its cause.
pub(crate) fn is_one(one: Alarm, other: Alarm) -> bool
    ensures { Decides result (one ≡ other) }
{
    one == other
}

/// Whether two subjects are one.
pub(crate) fn is_same(one: AlarmSubject, other: AlarmSubject) -> bool
    ensures { Decides result (one ≡ other) }
{
    one == other
}
