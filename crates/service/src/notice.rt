//! What a service tells of what happened.
use crate::read_back::Difference;
use crate::refusals::ReadRefusal;
use gateway::Report;
use modbus_frame::Exception;
use point_writer::NoWrite;

/// What happened. Devices and outputs are told by their numbers.
#[derive(Clone, Copy, Debug, PartialEq, Eq)]
pub enum Notice {
    /// A device's map was found: a new device, or one that was lost or whose registers changed.
    Found(usize),
    /// A device has no map.
    NoMap(usize),
    /// A device answered that isn't the one that it has to be. It isn't told again before it says something else, or the right one
    /// is found.
    Another(usize),
    /// A device is lost. It isn't told again before it is found or back.
    Lost(usize, Loss),
    /// A lost device that kept its map answered.
    Back(usize),
    /// A device refused to read registers; each refusal is told once, and eight of a device at most.
    Refused(usize, ReadRefusal),
    /// What a scan planned is written, or the next one comes.
    Scanned(Report),
    /// A scan came so many milliseconds after its time.
    Late(u64),
    /// An output isn't written any more, or for another cause than before.
    Unwritten(usize, Unwritten),
    /// A device took an output that wasn't written before.
    Written(usize),
    /// A device shows an output otherwise than it took it. It isn't told again before it agrees or something new becomes of the output.
    Differs(usize, Difference),
    /// A device shows an output again as it took it.
    Agrees(usize),
}

/// Why a device is lost.
#[derive(Clone, Copy, Debug, PartialEq, Eq)]
pub enum Loss {
    /// Its connection is down.
    Down,
    /// It answered nothing in time.
    Silent,
    /// What came over its connection is no frame.
    Frame,
    /// Too many frames came that answered something else.
    Stale,
    /// A gateway before it says that it doesn't answer, or can't be reached.
    Gateway,
}

/// Why an output isn't written.
#[derive(Clone, Copy, Debug, PartialEq, Eq)]
pub enum Unwritten {
    /// There is no set point for it.
    NoSetPoint(NoWrite),
    /// Its device answered otherwise than by taking it: with this exception (Modbus Application Protocol V1.1b3, section 7), or
    /// with what is no answer to the write.
    Refused(Option<Exception>),
    /// Its device didn't answer, or was lost before it was asked.
    Unanswered,
}
