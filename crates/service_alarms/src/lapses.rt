//! What clients set and nobody wrote again in its time, or nobody ever set.
ghost use Rattle.std.specs.Prelude.{◌≡◌, ◌++◌, OnOk, Some};
ghost use Rattle.gateway.specs.event_core.SiteRun.{has_lapsed};
ghost use Rattle.site_model.specs.Readings.{known_at};
ghost use Rattle.service_alarms.specs.Alarms.{of_age, of_setting, sets_missing};

use crate::alarm::Alarm;
use gateway::has_lapsed;
use point_types::Items;
use site_model::SiteTag;
use std::alloc::AllocError;

/// Appends an alarm for each tag whose set value has lapsed, or that lapses and was never set. The service began `running`
/// milliseconds ago, and clients set the tags so many ago.
pub(crate) fn push_lapses(
    alarms: &mut Items<Alarm>,
    running: u64,
    ages: &[Option<u32>],
    tags: &[SiteTag],
) -> Result<(), AllocError>
    ensures { OnOk result (alarms.new ≡ alarms.old ++ sets_missing running ages.now tags.now) }
{
    for (i, tag) in tags.iter().enumerate() {
        push_lapse(alarms, running, ages, i, tag)?;
    }
    Ok(())
}

fn push_lapse(
    alarms: &mut Items<Alarm>,
    running: u64,
    ages: &[Option<u32>],
    i: usize,
    tag: &SiteTag,
) -> Result<(), AllocError>
    ensures { OnOk result (alarms.new ≡ alarms.old ++ of_setting running ages.now i tag.now) }
{
    push_of_age(alarms, tag.lapse, running, i, age_at(ages, i))
}

fn push_of_age(
    alarms: &mut Items<Alarm>,
    lapse: Option<u32>,
    running: u64,
    i: usize,
    age: Option<u32>,
) -> Result<(), AllocError>
    ensures { OnOk result (alarms.new ≡ alarms.old ++ of_age lapse running i age) }
{
    match age {
        Some(_) if has_lapsed(lapse, age) => alarms.push(Alarm::SetLapsed(i)),
        None if is_over(lapse, running) => alarms.push(Alarm::NeverSet(i)),
        Some(_) | None => Ok(()),
    }
}

/// Whether what was set so many milliseconds ago has lapsed, be that longer ago than ages are told apart.
fn is_over(lapse: Option<u32>, running: u64) -> bool
    ensures { result ≡ has_lapsed lapse (Some running) }
{
    match lapse {
        Some(seconds) => u64::from(seconds) * 1000 <= running,
        None => false,
    }
}

fn age_at(ages: &[Option<u32>], i: usize) -> Option<u32>
    ensures { result ≡ known_at ages.now i }
{
    match ages.get(i) {
        Some(age) => *age,
        None => None,
    }
}
