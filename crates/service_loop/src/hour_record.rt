//! What is recorded of the last hour.
use crate::serving::Serving;
use gateway::{Core, DEPTH, partial_total_of, total_of};
use history::{EventRing, LastHour, Quantities, quantities_in};
use metrics::tag_number;
use served_ranges::point_of_entry;
use site_model::{Served, Site, Source};
use std::alloc::{AllocError, Global};

/// The last hour of a site: how many instructions its scans took, then its tags, and then the sums that are served.
#[derive(Drop)]
pub(crate) struct HourRecord {
    alloc: Global,
    quantities: Quantities,
    /// How many more have room.
    left: u64,
}

impl HourRecord {
    /// Nothing was recorded so far. Those that have no room in so many bytes aren't recorded: the last ones.
    fn new(alloc: Global, site: &Site, memory: u64) -> Result<HourRecord, AllocError> {
        let mut record = HourRecord {
            alloc,
            quantities: Quantities::new(alloc),
            left: quantities_in(memory),
        };
        record.add(String::from_str(alloc, "steps")?)?;
        for tag in site.tags() {
            let name = tag.name.as_str();
            record.add(format!(in alloc; "tag:{name}")?)?;
        }
        record.add_sums(site)?;
        Ok(record)
    }

    fn add_sums(&mut self, site: &Site) -> Result<(), AllocError> {
        for entry in site.served() {
            if is_sum(&entry.source) {
                self.add(sum_name(self.alloc, site, entry)?)?;
            }
        }
        Ok(())
    }

    /// One more, where it has room.
    fn add(&mut self, name: String) -> Result<(), AllocError> {
        if self.left == 0 {
            return Ok(());
        }
        self.left = self.left.saturating_sub(1);
        self.quantities.add(name)
    }

    /// Records a scan so many milliseconds after the start, of so many instructions.
    pub(crate) fn scanned(&mut self, now: u64, steps: Option<u32>, core: &Core<DEPTH>) {
        self.turn_to(now);
        self.put(0, steps.map(i64::from));
        let site = core.site();
        for (place, tag) in site.tags().iter().enumerate() {
            self.put(place.saturating_add(1), tag_number(core, tag, place));
        }
        self.put_sums(site.tags().len().saturating_add(1), core);
    }

    /// Records the sums, of which the first has this place.
    fn put_sums(&mut self, first: usize, core: &Core<DEPTH>) {
        let mut place = first;
        for entry in core.site().served() {
            if is_sum(&entry.source) {
                self.put(place, sum_in(core, &entry.source));
                place = place.saturating_add(1);
            }
        }
    }

    fn put(&mut self, place: usize, number: Option<i64>) {
        if let Some(number) = number {
            self.quantities.put(place, number);
        }
    }

    /// So many milliseconds after the start, the time goes on.
    pub(crate) fn turn_to(&mut self, now: u64) {
        self.quantities.turn_to(now);
    }

    /// The last hour, with these lines, of which so many were told, at this time of day.
    pub(crate) fn last_hour<'a>(
        &'a self,
        events: &'a EventRing,
        told: u64,
        time: &'a str,
    ) -> LastHour<'a> {
        LastHour {
            alloc: self.alloc,
            quantities: &self.quantities,
            events,
            told,
            time,
        }
    }
}

/// Room for the last hour of a site, where somebody can look at it.
pub(crate) fn hour_of(
    alloc: Global,
    serving: &Serving<'_>,
    site: &Site,
) -> Result<Option<HourRecord>, AllocError> {
    match serving.page {
        Some(window) => Ok(Some(HourRecord::new(alloc, site, window.memory)?)),
        None => Ok(None),
    }
}

/// Room for the last lines, where somebody can look at them.
pub(crate) fn events_of(
    alloc: Global,
    serving: &Serving<'_>,
) -> Result<Option<EventRing>, AllocError> {
    match serving.page {
        Some(_) => Ok(Some(EventRing::new(alloc)?)),
        None => Ok(None),
    }
}

/// How many quantities of a site are recorded, where all have room.
pub fn quantities_of(site: &Site) -> u64 {
    let mut count = (site.tags().len() as u64).saturating_add(1);
    for entry in site.served() {
        if is_sum(&entry.source) {
            count = count.saturating_add(1);
        }
    }
    count
}

fn is_sum(source: &Source) -> bool {
    match source {
        Source::Sum(_) | Source::PartialSum(_) => true,
        Source::Raw(_) | Source::Text(_) => false,
    }
}

/// What a sum was in the last scan; None where inputs that it needs have no value.
fn sum_in(core: &Core<DEPTH>, source: &Source) -> Option<i64> {
    match source {
        Source::Sum(parts) => total_of(core.readings(), parts.as_slice()),
        Source::PartialSum(parts) => partial_total_of(core.readings(), parts.as_slice()),
        Source::Raw(_) | Source::Text(_) => None,
    }
}

/// `served:MODEL POINT`.
fn sum_name(alloc: Global, site: &Site, entry: &Served) -> Result<String, AllocError> {
    let point = match point_of_entry(site.models(), entry) {
        Some(point) => point.name.as_str(),
        None => "-",
    };
    let model = entry.model;
    let name = format!(in alloc; "served:{model} {point}")?;
    Ok(name)
}
