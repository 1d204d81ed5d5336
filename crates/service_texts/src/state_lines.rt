//! The text in which set values are kept: a line `NAME=NUMBER` for each tag that is set.
ghost use Rattle.std.specs.Prelude.{◌≡◌, ◌++◌, ℕ, ℤ, List, Some, IfOk, OnOk, MatchOption};
ghost use Rattle.std.specs.Str.Lines.{lines};
ghost use Rattle.service_texts.specs.State.{AreSaid, IsFit, IsStateLine, Says, state_text, tag_from, tag_line};

use point_types::Name;
use site_model::SiteTag;
use std::alloc::{AllocError, Global};

/// What a line of the text says.
#[derive(Clone, Copy)]
pub struct KeptSetting<'a> {
    /// What stands before the line's first equals sign.
    pub name: &'a str,
    /// The number after it.
    pub number: i64,
}

/// What a line of the text sets, or why it is left out.
#[derive(Clone, Copy)]
pub enum StateLine {
    /// The tag of this number is set to this number.
    Sets { tag: usize, number: i64 },
    /// The line isn't `NAME=NUMBER`.
    NoSetting,
    /// No tag has the name that the line says.
    NoTag,
}

/// The lines of the tags that are set, in their order. Read line by line, they say just these settings.
pub fn state_text(
    alloc: Global,
    tags: &[SiteTag],
    settings: &[Option<i64>],
) -> Result<Vec<u8>, AllocError>
    ensures exact { IfOk result (λ text. text.items ≡ state_text tags.now settings.now) }
    ensures again { IfOk result (λ text. AreSaid tags.now settings.now (lines text.items)) }
{
    let mut text = Vec::new(alloc);
    let mut tags = tags;
    let mut settings = settings;
    while let Some((tag, more_tags)) = tags.split_first() {
        let Some((number, more_settings)) = settings.split_first() else {
            break;
        };
        push_tag(&mut text, alloc, &tag.name, *number)?;
        tags = more_tags;
        settings = more_settings;
    }
    Ok(text)
}

/// Appends the line of a tag, where it is set.
fn push_tag(
    text: &mut Vec<u8>,
    alloc: Global,
    name: &Name,
    number: Option<i64>,
) -> Result<(), AllocError>
    ensures line { OnOk result (text.new.items ≡ text.old.items ++ tag_line name.now number) }
    ensures fit { OnOk result (IsFit name.now number) }
{
    match number {
        Some(number) => push_setting(text, alloc, name, number),
        None => Ok(()),
    }
}

/// Appends the line of a setting.
pub(crate) fn push_setting(
    text: &mut Vec<u8>,
    alloc: Global,
    name: &Name,
    number: i64,
) -> Result<(), AllocError>
    ensures line { OnOk result (text.new.items ≡ text.old.items ++ tag_line name.now (Some number)) }
    ensures fit { OnOk result (IsFit name.now (Some number)) }
{
    text.extend_from_slice(name.as_bytes())?;
    text.push(b'=')?;
    let number = number.to_string(alloc)?;
    text.extend_from_slice(number.as_bytes())?;
    text.push(b'\n')?;
    Ok(())
}

/// What a line says; none where it isn't `NAME=NUMBER`.
pub fn setting_in(line: &str) -> Option<KeptSetting<'_>>
    ensures { MatchOption result ((name : List ℕ) (number : ℤ) → Says line.now name number → ⊥) (λ s. Says line.now s.name.now s.number) }
{
    let (name, number) = line.split_once('=')?;
    match number.parse::<i64>() {
        Ok(number) => Some(KeptSetting { name, number }),
        Err(_) => None,
    }
}

/// The number of the tag of a name.
pub fn tag_named(tags: &[SiteTag], name: &str) -> Option<usize>
    ensures { result ≡ tag_from 0 name.now tags.now }
{
    for (number, tag) in tags.iter().enumerate() {
        if tag.name.as_str() == name {
            return Some(number);
        }
    }
    None
}

/// What a line sets: the number that it says, with its sign, at the first of these tags that has the name that it says. Where
/// it is left out, it says no setting, or no tag has its name.
#[tactic(auto, using(crate::proofs::StateLines::said_by_its_name))]
pub fn state_line(tags: &[SiteTag], line: &str) -> StateLine
    ensures { IsStateLine tags.now line.now result }
{
    let Some(setting) = setting_in(line) else {
        return StateLine::NoSetting;
    };
    match tag_named(tags, setting.name) {
        Some(tag) => StateLine::Sets {
            tag,
            number: setting.number,
        },
        None => StateLine::NoTag,
    }
}
