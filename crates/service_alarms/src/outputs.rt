//! What isn't written of the outputs, and what their devices show otherwise.
ghost use Rattle.std.specs.Prelude.{◌≡◌, ◌++◌, OnOk};
ghost use Rattle.service_alarms.specs.Alarms.{of_difference, of_output, outputs_differing, outputs_unwritten};

use crate::alarm::Alarm;
use point_types::Items;
use service::{Difference, OutputState};
use std::alloc::AllocError;

/// Appends an alarm for each output that isn't written.
pub(crate) fn push_outputs(
    alarms: &mut Items<Alarm>,
    outputs: &[Option<OutputState>],
) -> Result<(), AllocError>
    ensures { OnOk result (alarms.new ≡ alarms.old ++ outputs_unwritten outputs.now) }
{
    for (i, output) in outputs.iter().enumerate() {
        push_output(alarms, i, *output)?;
    }
    Ok(())
}

fn push_output(
    alarms: &mut Items<Alarm>,
    i: usize,
    output: Option<OutputState>,
) -> Result<(), AllocError>
    ensures { OnOk result (alarms.new ≡ alarms.old ++ of_output i output) }
{
    match output {
        Some(OutputState::Unwritten(cause)) => alarms.push(Alarm::OutputUnwritten(i, cause)),
        Some(OutputState::Written) | None => Ok(()),
    }
}

/// Appends an alarm for each output that its device shows otherwise than it took it.
pub(crate) fn push_differences(
    alarms: &mut Items<Alarm>,
    differences: &[Option<Difference>],
) -> Result<(), AllocError>
    ensures { OnOk result (alarms.new ≡ alarms.old ++ outputs_differing differences.now) }
{
    for (i, difference) in differences.iter().enumerate() {
        push_difference(alarms, i, *difference)?;
    }
    Ok(())
}

fn push_difference(
    alarms: &mut Items<Alarm>,
    i: usize,
    difference: Option<Difference>,
) -> Result<(), AllocError>
    ensures { OnOk result (alarms.new ≡ alarms.old ++ of_difference i difference) }
{
    match difference {
        Some(difference) => alarms.push(Alarm::OutputDiffers(i, difference)),
        None => Ok(()),
    }
}
