//! What to do about what is wrong.
use crate::alarm::{Alarm, Hidden};
use point_types::Cause;
use point_writer::NoWrite;
use service::{Loss, Unwritten};

/// What to do about an alarm, in a sentence or two.
pub fn advice(alarm: Alarm) -> &'static str {
    match alarm {
        Alarm::DeviceLost(_, loss) => device_advice(loss),
        Alarm::DeviceUnmapped(_) => {
            "It answers and has no SunSpec map at 40000, 50000 or 0: switch SunSpec on in the device, or give base in the site file."
        }
        Alarm::DeviceAnother(_) => {
            "It isn't written. See whether addresses or units are swapped; where it was exchanged on purpose, write its serial number into the site file."
        }
        Alarm::ModelMissing(_) => {
            "Name a model that it has in the site file, or look for another setting or firmware of the device."
        }
        Alarm::InputMissing(_, cause) => input_advice(cause),
        Alarm::OutputUnwritten(_, cause) => output_advice(cause),
        Alarm::OutputDiffers(..) => {
            "See whether its remote control is on, and whether something else sets it. Of a point that the device clears say read_back = false."
        }
        Alarm::SetLapsed(_) | Alarm::NeverSet(_) => {
            "See whether the client runs and reaches this machine, and whether its writes are refused. Its next write ends this."
        }
        Alarm::SumHidden(_, why) | Alarm::StoredHidden(_, why) => point_advice(why),
        Alarm::RoundLate => {
            "The machine was busy or asleep for more than a period. Where that is often, make the period longer."
        }
        Alarm::StateUnwritten => {
            "Look at the disk, and at the folder of the file: a restart would go back to what the file has."
        }
        Alarm::ProgramRefused => {
            "Correct the program's file, as check says, or put the old one back before the next restart."
        }
    }
}

fn device_advice(loss: Option<Loss>) -> &'static str {
    match loss {
        Some(Loss::Down) => {
            "See whether it is on, and whether its address and port are right. Some devices take one connection only. It is tried again by itself."
        }
        Some(Loss::Silent) => {
            "Its unit may be wrong, it may be off, or slower than --timeout: give that more."
        }
        Some(Loss::Frame) => {
            "What answers there is no Modbus TCP server: look at its address and port."
        }
        Some(Loss::Stale) => "It mixes up its replies: look at the logger or gateway before it.",
        Some(Loss::Gateway) => {
            "What it stands behind says that it can't be reached or doesn't answer: its unit may be wrong, or it is off."
        }
        None => "See whether it is on, and whether its address and unit are right.",
    }
}

fn input_advice(cause: Cause) -> &'static str {
    match cause {
        Cause::NoBlock => "The device is lost or another one, or it lacks the model.",
        Cause::ShortModel => {
            "Its model is shorter than the definition: hand in a definition with its length by --def."
        }
        Cause::NotImplemented => {
            "The device doesn't have this point: take another one, or give the tag a default."
        }
        Cause::BadScale => {
            "Its scale factor is none: look at it with probe, and set it in the device."
        }
        Cause::Inexact => {
            "It counts in finer steps than the tag: say round = \"down\", or give the tag a lower exponent."
        }
        Cause::OutOfRange => {
            "Make low and high of the tag wider; else the device says what can't be."
        }
    }
}

fn output_advice(cause: Unwritten) -> &'static str {
    match cause {
        Unwritten::NoSetPoint(NoWrite::NotSet) => {
            "The program stores nothing for it, maybe since an input is missing."
        }
        Unwritten::NoSetPoint(NoWrite::NoBlock) => {
            "The device is lost or another one, or it lacks the model. It keeps its last limit until its own reversion time is over."
        }
        Unwritten::NoSetPoint(NoWrite::BadScale) => {
            "Its scale factor is none: look at it with probe, and set it in the device."
        }
        Unwritten::NoSetPoint(NoWrite::Inexact | NoWrite::OutOfType) => {
            "The device's scale factor can't say this number: say fit = \"down\" at the tag, or set another factor in the device."
        }
        Unwritten::NoSetPoint(NoWrite::With) => {
            "The output that it goes with isn't written: look at that one."
        }
        Unwritten::Refused(_) => {
            "The device doesn't take it. Many want a setting that allows remote control."
        }
        Unwritten::Unanswered => {
            "The device didn't answer the write: look whether it is lost, or slower than --timeout."
        }
    }
}

fn point_advice(why: Hidden) -> &'static str {
    match why {
        Hidden::Part(_) => "An input of the sum has no value: look at that one.",
        Hidden::NotStored => "Let the program store a number in each scan.",
        Hidden::BadScale => "Serve its scale factor with a value in -10..10.",
        Hidden::Inexact => {
            "Serve a scale factor that is no greater than the exponent of what is shown."
        }
        Hidden::OutOfType => {
            "Serve a greater scale factor, or make the range of what is shown narrower."
        }
    }
}
