//! Why a program is refused, by what is known where it is.
use crate::budget::budget_detail;
use crate::code_lines::{declared_line, instruction_line};
use crate::refusing::instruction_text;
use crate::words::{access_words, type_word};
use facts::{Refusal, RefusalKind, RefusedAt};
use il_reader::Program;
use point_types::Name;
use scan_code::{Image, Tag};
use site_model::{Site, SiteTag};
use std::alloc::{AllocError, Global};

/// What is known where a program is refused.
#[derive(Drop)]
pub struct Detail {
    /// The line that is refused, counted from 1; 0 where there is none.
    pub line: u32,
    /// What is known there; empty where nothing is told.
    pub text: String,
}

impl Detail {
    /// Nothing is known, and there is no line.
    pub(crate) fn none(alloc: Global) -> Detail {
        Detail {
            line: 0,
            text: String::new(alloc),
        }
    }
}

/// Why a program's image is refused for a site: of a tag what both sides say of it, of an instruction what is known
/// before it.
pub fn detail_of(
    alloc: Global,
    program: &Program,
    image: &Image,
    site: &Site,
    refusal: &Refusal,
) -> Result<Detail, AllocError> {
    match refusal.at {
        RefusedAt::Instruction(number) => Ok(Detail {
            line: instruction_line(alloc, program, number),
            text: instruction_text(alloc, program, image, site, number, refusal.kind)?,
        }),
        RefusedAt::Tag(number) => tag_detail(alloc, program, image, site, number, refusal.kind),
        RefusedAt::Program => budget_detail(alloc, program, image, site, refusal.kind),
    }
}

/// What both sides say of a tag of the image.
fn tag_detail(
    alloc: Global,
    program: &Program,
    image: &Image,
    site: &Site,
    number: usize,
    kind: RefusalKind,
) -> Result<Detail, AllocError> {
    match image.tags.as_slice().get(number) {
        Some(tag) => Ok(Detail {
            line: declared_line(program, &tag.name),
            text: tag_text(alloc, tag, site, kind)?,
        }),
        None => Ok(Detail::none(alloc)),
    }
}

fn tag_text(
    alloc: Global,
    tag: &Tag,
    site: &Site,
    kind: RefusalKind,
) -> Result<String, AllocError> {
    match (site_tag(site, &tag.name), kind) {
        (Some(other), RefusalKind::TagType) => type_text(alloc, tag, other),
        (Some(other), _) => access_text(alloc, tag, other),
        (None, _) => unknown_text(alloc, tag),
    }
}

/// The site's tag of a name.
fn site_tag<'a>(site: &'a Site, name: &Name) -> Option<&'a SiteTag> {
    for tag in site.tags() {
        if tag.name.as_bytes() == name.as_bytes() {
            return Some(tag);
        }
    }
    None
}

fn type_text(alloc: Global, tag: &Tag, other: &SiteTag) -> Result<String, AllocError> {
    let (ours, theirs) = (type_word(tag.kind), type_word(other.kind));
    format!(in alloc; "declared as {ours}, the site has {theirs}")
}

fn access_text(alloc: Global, tag: &Tag, other: &SiteTag) -> Result<String, AllocError> {
    let (ours, theirs) = (use_word(tag), access_words(other.access));
    format!(in alloc; "the program {ours} it, the site's access is {theirs}")
}

fn unknown_text(alloc: Global, tag: &Tag) -> Result<String, AllocError> {
    let (used, kind) = (use_word(tag), type_word(tag.kind));
    format!(in alloc; "the program {used} it as {kind}")
}

/// What the program does with a tag.
fn use_word(tag: &Tag) -> &'static str {
    if tag.output { "stores" } else { "loads" }
}
