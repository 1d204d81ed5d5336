//! How long ago clients set what lapses, in the file of set values: `NAME=NUMBER`, the oldest first, and after each a line
//! `LATER MS`, the milliseconds that went by until the next one was set, or until the file was written.
ghost use Rattle.std.specs.Prelude.{◌≡◌, ◌++◌, IfOk, OnOk};
ghost use Rattle.service_texts.specs.Lapsing.{aged_text, later_line, lasting, age_of_first};

use crate::state_lines::push_setting;
use point_types::{Items, Name};
use site_model::SiteTag;
use std::alloc::{AllocError, Global};

/// With what a line begins that says how much time went by.
const MARK: &str = "LATER ";

/// What a client set, and how many milliseconds ago.
#[derive(Clone, Copy, PartialEq, Eq, Debug)]
pub struct AgedSetting {
    pub name: Name,
    pub number: i64,
    pub age: u32,
}

/// What is set of the tags that never lapse, an entry for each tag.
pub fn lasting_settings(
    alloc: Global,
    tags: &[SiteTag],
    settings: &[Option<i64>],
) -> Result<Vec<Option<i64>>, AllocError> {
    let mut lasting = Vec::with_capacity(alloc, settings.len())?;
    for (tag, setting) in tags.iter().zip(settings) {
        lasting.push(lasting_of(tag, *setting))?;
    }
    Ok(lasting)
}

fn lasting_of(tag: &SiteTag, setting: Option<i64>) -> Option<i64>
    ensures { result ≡ lasting tag.now setting }
{
    match tag.lapse {
        Some(_) => None,
        None => setting,
    }
}

/// What is set of the tags that lapse, what was set first in front; `ages` has an entry for each tag.
pub fn aged_settings(
    alloc: Global,
    tags: &[SiteTag],
    settings: &[Option<i64>],
    ages: &[Option<u32>],
) -> Result<Vec<AgedSetting>, AllocError> {
    let mut aged = Vec::new(alloc);
    for (i, tag) in tags.iter().enumerate() {
        if let Some(setting) = aged_at(tag, i, settings, ages) {
            aged.push(setting)?;
        }
    }
    aged.sort_by_key(|setting| u32::MAX - setting.age)?;
    Ok(aged)
}

fn aged_at(
    tag: &SiteTag,
    i: usize,
    settings: &[Option<i64>],
    ages: &[Option<u32>],
) -> Option<AgedSetting> {
    tag.lapse?;
    let number = (*settings.get(i)?)?;
    let age = (*ages.get(i)?)?;
    let name = tag.name;
    Some(AgedSetting { name, number, age })
}

/// The lines of these set values, each with the time until the next was set, and the last one with its age.
pub fn aged_text(alloc: Global, settings: &[AgedSetting]) -> Result<Vec<u8>, AllocError>
    ensures { IfOk result (λ text. text.items ≡ aged_text settings.now) }
{
    let mut text = Vec::new(alloc);
    let mut rest = settings;
    while let Some((setting, more)) = rest.split_first() {
        let until = setting.age.saturating_sub(age_of_first(more));
        push_setting(&mut text, alloc, &setting.name, setting.number)?;
        push_later(&mut text, alloc, until)?;
        rest = more;
    }
    Ok(text)
}

/// The age of the first of some set values, 0 where there is none.
fn age_of_first(settings: &[AgedSetting]) -> u32
    ensures { result ≡ age_of_first settings.now }
{
    match settings {
        [first, ..] => first.age,
        [] => 0,
    }
}

/// Appends the line that says that so much time went by.
fn push_later(text: &mut Vec<u8>, alloc: Global, ms: u32) -> Result<(), AllocError>
    ensures { OnOk result (text.new.items ≡ text.old.items ++ later_line ms) }
{
    text.extend_from_slice(b"LATER ")?;
    let ms = ms.to_string(alloc)?;
    text.extend_from_slice(ms.as_bytes())?;
    text.push(b'\n')?;
    Ok(())
}

/// The milliseconds that a line says went by; none where it says no time.
pub fn time_in(line: &str) -> Option<u32> {
    line.strip_prefix(MARK)?.parse().ok()
}
