//! Warnings of the points that don't always say what they are to.
use crate::mending::mend_of;
use crate::reason::reason_of;
use crate::set_points::told_of_output;
use crate::subject::{ShownNumber, Subject};
use crate::words::wrong_with;
use file_notes::{EntryName, entry_shown};
use note_text::escaped;
use point_writer::number_out;
use served_ranges::{
    Demand, always_shows_stored, always_shows_sum, demand_of_stored, demand_of_sum,
    factor_for_range,
};
use site_model::{Access, Fit, Sf, Site, SiteTag};
use std::alloc::{AllocError, Global};

/// The most points that are told.
const MOST_TOLD: usize = 10;

/// What is told of an `out` tag without the key `fit`, and below it what to do.
const UNFITTED: &str =
    "what the program stores isn't written where its point can't say it by the factor that the device has\n  help: add fit = \"down\" (of a limit), or fit = \"up\": then the next number that it can say is written";

/// Warnings, as lines on the site file at a path.
#[derive(Drop)]
struct Warnings {
    path: String,
    lines: String,
    count: usize,
}

/// Warnings of the sums, the `site` tags and the `out` tags of a site whose numbers their points can't say in each case, by
/// the ranges of the file at a path; empty where each can.
pub fn shown_warnings(alloc: Global, path: &str, site: &Site) -> Result<String, AllocError> {
    let mut warnings = Warnings {
        path: escaped(alloc, path)?,
        lines: String::new(alloc),
        count: 0,
    };
    warnings.push_sums(alloc, site)?;
    warnings.push_stored(alloc, site)?;
    warnings.push_outputs(alloc, site)?;
    warnings.told(alloc, "points don't always say what they are to")
}

/// Warnings of the `out` tags without the key `fit` whose point is scaled by a factor of the device's own: what the program stores
/// isn't written where the point can't say it. Empty where there are none.
pub fn unfitted_warnings(alloc: Global, path: &str, site: &Site) -> Result<String, AllocError> {
    let mut warnings = Warnings {
        path: escaped(alloc, path)?,
        lines: String::new(alloc),
        count: 0,
    };
    warnings.push_unfitted(alloc, site)?;
    warnings.told(alloc, "out tags have no fit")
}

/// Whether for some of what the program may store nothing is written, whatever the factor.
fn cant_say_all(tag: &SiteTag) -> bool {
    if tag.access != Access::Output {
        return false;
    }
    match tag.fit {
        Fit::Exact => factor_for_range(tag).is_none(),
        Fit::Down => !has_number_for(tag, tag.low),
        Fit::Up => !has_number_for(tag, tag.high),
    }
}

/// Whether by some factor that the device may have a number goes out for this one.
fn has_number_for(tag: &SiteTag, number: i64) -> bool {
    match tag.sf {
        Sf::None => number_out(tag, number, Some(0)).is_some(),
        Sf::Fixed(power) => number_out(tag, number, Some(i16::from(power))).is_some(),
        Sf::At(_) => has_number_by_any(tag, number),
    }
}

fn has_number_by_any(tag: &SiteTag, number: i64) -> bool {
    for factor in -10..=10i16 {
        if number_out(tag, number, Some(factor)).is_some() {
            return true;
        }
    }
    false
}

/// Whether what the program stores goes unwritten where the tag's point can't say it by the factor that its device has.
fn is_unfitted(tag: &SiteTag) -> bool {
    tag.access == Access::Output
        && tag.fit == Fit::Exact
        && matches!(tag.sf, Sf::At(_))
        && factor_for_range(tag).is_some()
}

/// What is wrong with a demand, and below it what to do.
fn told_of(alloc: Global, subject: Subject<'_>, demand: &Demand) -> Result<String, AllocError> {
    let reason = reason_of(demand);
    let mut text = wrong_with(alloc, subject, demand, reason)?;
    let mend = mend_of(alloc, subject, demand, reason)?;
    text.push_str("\n  help: ")?;
    text.push_str(mend.as_str())?;
    Ok(text)
}

impl Warnings {
    fn push_sums(&mut self, alloc: Global, site: &Site) -> Result<(), AllocError> {
        for (number, entry) in site.served().iter().enumerate() {
            if !always_shows_sum(site, entry) {
                let name = EntryName::Numbered("[[served]]", number.saturating_add(1));
                let demand = demand_of_sum(site, entry);
                let subject = Subject::of_entry(site.models(), entry);
                self.push(alloc, name, subject, demand)?;
            }
        }
        Ok(())
    }

    fn push_stored(&mut self, alloc: Global, site: &Site) -> Result<(), AllocError> {
        for (number, tag) in site.tags().iter().enumerate() {
            if tag.access == Access::Shown && !always_shows_stored(site, tag) {
                let number = number.saturating_add(1);
                let name = EntryName::Named("[[tag]]", tag.name.as_str(), number);
                self.push_tag(alloc, site, tag, name)?;
            }
        }
        Ok(())
    }

    fn push_tag(
        &mut self,
        alloc: Global,
        site: &Site,
        tag: &SiteTag,
        name: EntryName<'_>,
    ) -> Result<(), AllocError> {
        let demand = demand_of_stored(site, tag);
        let subject = Subject::of_tag(site.models(), tag);
        self.push(alloc, name, subject, demand)
    }

    fn push_unfitted(&mut self, alloc: Global, site: &Site) -> Result<(), AllocError> {
        for (number, tag) in site.tags().iter().enumerate() {
            if is_unfitted(tag) && self.count_one() {
                let number = number.saturating_add(1);
                let name = EntryName::Named("[[tag]]", tag.name.as_str(), number);
                self.push_text(alloc, name, UNFITTED)?;
            }
        }
        Ok(())
    }

    fn push_outputs(&mut self, alloc: Global, site: &Site) -> Result<(), AllocError> {
        for (number, tag) in site.tags().iter().enumerate() {
            if cant_say_all(tag) {
                let number = number.saturating_add(1);
                let name = EntryName::Named("[[tag]]", tag.name.as_str(), number);
                if self.count_one() {
                    let text = told_of_output(alloc, tag)?;
                    self.push_text(alloc, name, text.as_str())?;
                }
            }
        }
        Ok(())
    }

    /// Appends a warning, where not too many are told.
    fn push(
        &mut self,
        alloc: Global,
        name: EntryName<'_>,
        subject: Option<Subject<'_>>,
        demand: Option<Demand>,
    ) -> Result<(), AllocError> {
        let (Some(subject), Some(demand)) = (subject, demand) else {
            return Ok(());
        };
        if !self.count_one() {
            return Ok(());
        }
        let text = told_of(alloc, subject, &demand)?;
        self.push_text(alloc, name, text.as_str())
    }

    /// Counts one more, and says whether it is told.
    fn count_one(&mut self) -> bool {
        self.count = self.count.saturating_add(1);
        self.count <= MOST_TOLD
    }

    fn push_text(
        &mut self,
        alloc: Global,
        name: EntryName<'_>,
        text: &str,
    ) -> Result<(), AllocError> {
        let entry = entry_shown(alloc, name)?;
        let (path, entry) = (self.path.as_str(), entry.as_str());
        let lines = format!(in alloc; "{path}: warning: {entry}: {text}\n")?;
        self.lines.push_str(lines.as_str())
    }

    /// The lines, and how many more there are that are so.
    fn told(self, alloc: Global, are: &str) -> Result<String, AllocError> {
        let Warnings {
            path,
            mut lines,
            count,
        } = self;
        let more = count.saturating_sub(MOST_TOLD);
        if more > 0 {
            let path = path.as_str();
            let line = format!(in alloc; "{path}: warning: {more} more {are}\n")?;
            lines.push_str(line.as_str())?;
        }
        Ok(lines)
    }
}
