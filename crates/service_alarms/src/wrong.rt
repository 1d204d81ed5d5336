//! All that is wrong now.
ghost use Rattle.std.specs.Prelude.{◌≡◌, ◌++◌, List, OnOk};
ghost use Rattle.service_alarms.specs.Alarms.{AreServedMissing, IsAllMissing, IsAllWrong, one_if, wrong_beside, wrong_itself};
ghost use Rattle.service_alarms.specs.declared.alarm.Alarm.{Alarm as AlarmValue};

use crate::alarm::Alarm;
use crate::devices::{push_devices, push_models};
use crate::inputs::push_inputs;
use crate::lapses::push_lapses;
use crate::outputs::{push_differences, push_outputs};
use crate::served::{push_stored, push_sums};
use gateway::{Core, DEPTH};
use point_types::Items;
use service::{DeviceStatus, Difference, OutputState};
use std::alloc::AllocError;

/// What is looked at beside the core.
#[derive(Clone, Copy)]
pub struct Seen<'a> {
    /// How each of the site's devices stands.
    pub devices: &'a [DeviceStatus],
    /// What became of each of its outputs last.
    pub outputs: &'a [Option<OutputState>],
    /// What the device of each of these shows of it otherwise than it took it.
    pub differences: &'a [Option<Difference>],
    /// How many milliseconds ago the service began.
    pub running: u64,
    /// Whether a round began late within the last minute.
    pub is_late: bool,
    /// Whether the file of set values can't be written.
    pub is_unkept: bool,
    /// Whether the program's file has a program that isn't accepted.
    pub is_refused: bool,
}

/// From now on `alarms` is all that is wrong now: of the devices, the models that are wanted of them, the inputs, the outputs and
/// how their devices show them, the set values, the sums and the `site` tags that clients are shown, each in the site's order, of the rounds, of the file of
/// set values and of the program's file.
pub fn wrong_now(
    alarms: &mut Items<Alarm>,
    core: &Core<DEPTH>,
    seen: &Seen<'_>,
) -> Result<(), AllocError>
    ensures { OnOk result (IsAllWrong core.now seen.now.devices.now seen.now.outputs.now seen.now.differences.now seen.now.running seen.now.is_late seen.now.is_unkept seen.now.is_refused alarms.new) }
{
    alarms.clear();
    push_beside(alarms, core, seen)?;
    push_served(alarms, core)?;
    push_itself(alarms, seen.is_late, seen.is_unkept, seen.is_refused)
}

/// What of that the core alone says of numbers: the inputs, the sums and the `site` tags.
pub fn missing_now(alarms: &mut Items<Alarm>, core: &Core<DEPTH>) -> Result<(), AllocError>
    ensures { OnOk result (IsAllMissing core.now alarms.new) }
{
    alarms.clear();
    push_inputs(alarms, core.readings(), core.site().tags())?;
    push_served(alarms, core)
}

/// Appends what is wrong with devices, models, inputs, outputs and set values.
fn push_beside(
    alarms: &mut Items<Alarm>,
    core: &Core<DEPTH>,
    seen: &Seen<'_>,
) -> Result<(), AllocError>
    ensures { OnOk result (alarms.new ≡ alarms.old ++ wrong_beside core.now seen.now.devices.now seen.now.outputs.now seen.now.differences.now seen.now.running) }
{
    push_devices(alarms, seen.devices)?;
    push_models(alarms, core.maps(), core.site().wants())?;
    push_inputs(alarms, core.readings(), core.site().tags())?;
    push_outputs(alarms, seen.outputs)?;
    push_differences(alarms, seen.differences)?;
    push_lapses(alarms, seen.running, core.ages(), core.site().tags())
}

/// Appends what clients aren't shown of sums and `site` tags.
fn push_served(alarms: &mut Items<Alarm>, core: &Core<DEPTH>) -> Result<(), AllocError>
    ensures { OnOk result ((served : List AlarmValue) × AreServedMissing core.now served × (alarms.new ≡ alarms.old ++ served)) }
{
    push_sums(alarms, core.site(), core.readings())?;
    push_stored(alarms, core.site(), core.outputs())
}

/// Appends what is wrong with the service itself.
fn push_itself(
    alarms: &mut Items<Alarm>,
    is_late: bool,
    is_unkept: bool,
    is_refused: bool,
) -> Result<(), AllocError>
    ensures { OnOk result (alarms.new ≡ alarms.old ++ wrong_itself is_late is_unkept is_refused) }
{
    push_if(alarms, is_late, Alarm::RoundLate)?;
    push_if(alarms, is_unkept, Alarm::StateUnwritten)?;
    push_if(alarms, is_refused, Alarm::ProgramRefused)
}

fn push_if(alarms: &mut Items<Alarm>, holds: bool, alarm: Alarm) -> Result<(), AllocError>
    ensures { OnOk result (alarms.new ≡ alarms.old ++ one_if holds alarm) }
{
    if holds {
        alarms.push(alarm)?;
    }
    Ok(())
}
