//! What a service reads and writes as text, and what it is told.
use crate::bytes::needed;
use crate::fault::Shown;
use crate::page::Page;
use crate::sites::site;
use crate::texts::Texts;
use file_keys::TomlFile;
use service_texts::{
    AddressFault, Addresses, WriterFault, has_port, may_write, read_places, setting_in, state_text,
    tag_named, writers_of,
};
use std::alloc::Global;
use std::net::IpAddr;
use std::{io, str};

/// A step of the texts of a service.
#[derive(Clone, Copy)]
pub(crate) enum TextStep<'a> {
    /// Whether the lines of a text have the form `HOST:PORT`.
    Ports(&'a str),
    /// What the lines of a text set.
    Settings(&'a str),
    /// The lines of the tags of a site that are set to these, `-` where one isn't.
    State(&'a str, &'a [&'a str]),
    /// The number of the tag of a site that has this name.
    TagNamed(&'a str, &'a str),
    /// Where a site says that its devices are.
    Places(&'a str),
    /// Where they are behind one address.
    Behind(&'a str, &'a str),
    /// Whether a client at an address may write, where these words say who may.
    MayWrite(&'a str, &'a [&'a str]),
}

impl<'a> TextStep<'a> {
    /// The step that words say; None where it is none of texts.
    pub(crate) fn read(name: &str, words: &'a [&'a str]) -> Option<TextStep<'a>> {
        match (name, words) {
            ("ports", [text]) => Some(Self::Ports(*text)),
            ("settings", [text]) => Some(Self::Settings(*text)),
            ("state", [site, numbers @ ..]) => Some(Self::State(*site, numbers)),
            ("tag-named", [site]) => Some(Self::TagNamed(*site, "")),
            ("tag-named", [site, tag]) => Some(Self::TagNamed(*site, *tag)),
            ("places", [site]) => Some(Self::Places(*site)),
            ("behind", [address, site]) => Some(Self::Behind(*address, *site)),
            ("may-write", [address, writers @ ..]) => Some(Self::MayWrite(*address, writers)),
            _ => None,
        }
    }

    /// Tells what comes of it.
    pub(crate) fn tell(self, alloc: Global, texts: &Texts<'_>, page: &mut Page) -> Shown<()> {
        match self {
            TextStep::Ports(name) => tell_ports(page, texts.get(name)?),
            TextStep::Settings(name) => tell_settings(page, texts.get(name)?),
            TextStep::State(name, numbers) => tell_state(alloc, texts, page, name, numbers),
            TextStep::TagNamed(name, tag) => {
                let found = tag_named(site(alloc, texts, name)?.tags(), tag);
                page.tell(format_args!("{found:?}"))
            }
            TextStep::Places(name) => tell_places(alloc, page, texts.get(name)?),
            TextStep::Behind(address, name) => {
                let site = site(alloc, texts, name)?;
                tell_addresses(page, &Addresses::behind(alloc, address, site.devices())?)
            }
            TextStep::MayWrite(address, writers) => tell_writer(alloc, page, address, writers),
        }
    }
}

fn tell_ports(page: &mut Page, text: &str) -> Shown<()> {
    for line in text.lines() {
        let is_one = has_port(line);
        page.tell(format_args!("{line:?} {is_one}"))?;
    }
    Ok(())
}

fn tell_settings(page: &mut Page, text: &str) -> Shown<()> {
    for line in text.lines() {
        match setting_in(line) {
            Some(set) => page.tell(format_args!("{:?} is set to {}", set.name, set.number))?,
            None => page.tell(format_args!("{line:?} sets nothing"))?,
        }
    }
    Ok(())
}

fn tell_state(
    alloc: Global,
    texts: &Texts<'_>,
    page: &mut Page,
    name: &str,
    numbers: &[&str],
) -> Shown<()> {
    let mut settings = Vec::new(alloc);
    for number in numbers {
        settings.push(number.parse::<i64>().ok())?;
    }
    let text = state_text(alloc, site(alloc, texts, name)?.tags(), &settings)?;
    for line in needed(str::from_utf8(&text).ok())?.lines() {
        page.tell(line)?;
    }
    Ok(())
}

fn tell_places(alloc: Global, page: &mut Page, text: &str) -> Shown<()> {
    match read_places(alloc, &TomlFile::parse(alloc, text)?) {
        Ok(places) => tell_addresses(page, &Addresses::of(alloc, places.as_slice())?),
        Err(AddressFault::NotToml) => page.tell("no site file"),
        Err(AddressFault::Missing(device)) => page.tell(format_args!("no address of {device}")),
        Err(AddressFault::BadUnit(device)) => page.tell(format_args!("no unit of {device}")),
        Err(AddressFault::NoPort(device)) => page.tell(format_args!("no port of {device}")),
        Err(AddressFault::OutOfMemory) => page.tell("no memory"),
    }
}

fn tell_addresses(page: &mut Page, found: &Addresses) -> Shown<()> {
    for link in found.links.as_slice() {
        page.tell(link.as_str())?;
    }
    for station in found.stations.as_slice() {
        page.tell(format_args!("{station:?}"))?;
    }
    Ok(())
}

fn tell_writer(alloc: Global, page: &mut Page, address: &str, words: &[&str]) -> Shown<()> {
    let address = needed(address.parse::<IpAddr>().ok())?;
    match writers_of(alloc, words) {
        Ok(writers) => page.tell(may_write(writers.as_slice(), address)),
        Err(WriterFault::NoAddress) => page.tell("no address"),
        Err(WriterFault::OutOfMemory) => page.tell("no memory"),
    }
}
