//! From the text of a site file to the site.
ghost use Rattle.std.specs.Prelude.{◌≡◌, ◌≢◌, [], map, Ok, Err, IfOk, IfErr, MatchResult};
ghost use Rattle.toml.specs.View.{view, items_view};
ghost use Rattle.site_model.specs.Companions.{companions_of};
ghost use Rattle.site_model.specs.File.{has_long_section, has_many_models, layout_of, layout_over, section_in, site_in, site_of};
ghost use Rattle.site_model.specs.Parts.{IsAtFault, IsTagRefused, IsTreeFault, IsUnread};
ghost use Rattle.site_model.specs.Tagging.{tags_behind};
ghost use Rattle.site_model.specs.Views.{gateway_view, site_view};
ghost use Rattle.site_model.specs.TagView.{tag_view};
ghost use Rattle.site_model.specs.declared.fault.SiteFault.TheVariants as fault;
ghost use Rattle.site_model.specs.declared.part.SitePart.TheVariants as parts;

use crate::companions::read_companions;
use crate::device::SiteDevice;
use crate::device_numbers::device_numbers;
use crate::devices::read_devices;
use crate::fault::SiteFault;
use crate::gateway::{Gateway, read_gateway};
use crate::lengths::lengths_of;
use crate::part::SitePart;
use crate::served::Served;
use crate::serving::read_served;
use crate::site::Site;
use crate::tag::SiteTag;
use crate::tags::{Scope, read_tags};
use crate::wants::{outs_of, wants_of};
use file_keys::{Placed, TomlFile, has_over, section_at};
use model_defs::ModelDef;
use point_types::Items;
use std::alloc::{AllocError, Global};
use toml::Value;

/// The most models of a gateway.
pub const MOST_MODELS: usize = 16;
/// The most devices of a site.
pub const MOST_DEVICES: usize = 64;
/// The most tags of a site.
pub const MOST_TAGS: usize = 1024;
/// The most entries of what is served.
pub const MOST_SERVED: usize = 256;

impl Site {
    /// Reads a site file (TOML) over model definitions, of which the last one of an ID counts. Unknown keys aren't looked
    /// at. The first rule that the text breaks, in the order of [`SiteFault`], is the fault.
    pub fn read(alloc: Global, toml: &str, defs: &[ModelDef]) -> Result<Site, SiteFault>
        ensures told { IfOk result (λ site. site_in defs.now toml.now ≡ Ok (site_view site)) }
        ensures refused { IfErr result (λ e. e ≢ fault.OutOfMemory → site_in defs.now toml.now ≡ Err e) }
    {
        let file = TomlFile::parse(alloc, toml)?;
        match Site::read_file(alloc, &file, defs) {
            Ok(site) => Ok(site),
            Err(placed) => Err(placed.fault),
        }
    }

    /// The same of a file that is parsed; the fault, which is that of [`Site::read`], has the part of the file that breaks
    /// the rule.
    pub fn read_file(
        alloc: Global,
        file: &TomlFile<'_>,
        defs: &[ModelDef],
    ) -> Result<Site, Placed<SiteFault, SitePart>>
        ensures told { IfOk result (λ site. site_in defs.now file.now ≡ Ok (site_view site)) }
        ensures refused { IfErr result (λ p. p.fault ≢ fault.OutOfMemory → site_in defs.now file.now ≡ Err p.fault) }
        ensures placed { IfErr result (λ p. p.fault ≢ fault.OutOfMemory → IsAtFault defs.now file.now p.part p.fault) }
    {
        let mut part = SitePart::File;
        match read_to(alloc, file, defs, &mut part) {
            Ok(site) => Ok(site),
            Err(fault) => Err(Placed { fault, part }),
        }
    }
}

/// Reads a site file, and notes the part that it has come to.
fn read_to(
    alloc: Global,
    file: &TomlFile<'_>,
    defs: &[ModelDef],
    part: &mut SitePart,
) -> Result<Site, SiteFault>
    requires { part.old ≡ parts.File }
    ensures told { IfOk result (λ site. site_in defs.now file.now ≡ Ok (site_view site)) }
    ensures refused { IfErr result (λ e. e ≢ fault.OutOfMemory → site_in defs.now file.now ≡ Err e) }
    ensures placed { IfErr result (λ e. e ≢ fault.OutOfMemory → IsAtFault defs.now file.now part.new e) }
{
    match file.tree() {
        Ok(tree) => read_tree(alloc, defs, tree, part),
        Err(_) => Err(SiteFault::NotToml),
    }
}

/// The same of a tree.
fn read_tree(
    alloc: Global,
    defs: &[ModelDef],
    file: &Value,
    part: &mut SitePart,
) -> Result<Site, SiteFault>
    ensures told { IfOk result (λ site. site_of defs.now (view file.now) ≡ Ok (site_view site)) }
    ensures refused { IfErr result (λ e. e ≢ fault.OutOfMemory → site_of defs.now (view file.now) ≡ Err e) }
    ensures placed { IfErr result (λ e. e ≢ fault.OutOfMemory → IsTreeFault defs.now (view file.now) part.new e) }
{
    if has_many_models(file) {
        *part = SitePart::Gateway;
        return Err(SiteFault::TooMany);
    }
    if has_long_section(file) {
        *part = SitePart::File;
        return Err(SiteFault::TooMany);
    }
    read_sections(alloc, defs, file, part)
}

/// Reads the sections in order.
fn read_sections(
    alloc: Global,
    defs: &[ModelDef],
    file: &Value,
    part: &mut SitePart,
) -> Result<Site, SiteFault>
    ensures told { IfOk result (λ site. layout_of defs.now (view file.now) ≡ Ok (site_view site)) }
    ensures refused { IfErr result (λ e. e ≢ fault.OutOfMemory → layout_of defs.now (view file.now) ≡ Err e) }
    ensures placed { IfErr result (λ e. e ≢ fault.OutOfMemory → IsUnread defs.now (view file.now) part.new e) }
{
    *part = SitePart::Gateway;
    let gateway = read_gateway(alloc, defs, file)?;
    let entries = section_in(file, "device", part)?;
    let devices = read_devices(alloc, entries, part)?;
    let own = gateway.models.as_slice();
    let entries = section_in(file, "tag", part)?;
    let tags = tags_over(alloc, devices.as_slice(), own, defs, entries, part)?;
    let entries = section_in(file, "served", part)?;
    let served = read_served(
        alloc,
        gateway.models.as_slice(),
        tags.as_slice(),
        entries,
        part,
    )?;
    let companions = read_companions(alloc, tags.as_slice(), part)?;
    let read = Sections {
        gateway,
        devices,
        tags,
        served,
        companions,
    };
    Ok(with_lookups(alloc, defs, read)?)
}

/// The entries of a section, none where it is missing; one that is no list is a fault of the file.
fn section_in<'a>(file: &'a Value, key: &str, part: &mut SitePart) -> Result<&'a [Value], SiteFault>
    ensures entries { MatchResult result
        (λ entries. section_in key.now (view file.now) ≡ Ok (items_view entries.now))
        (λ e. section_in key.now (view file.now) ≡ Err e) }
    ensures part { part.new ≡ parts.File }
{
    *part = SitePart::File;
    match section_at(file, key) {
        Some(entries) => Ok(entries),
        None => Err(SiteFault::MissingKey),
    }
}

/// Reads the tags over these devices, the gateway's own models and all definitions.
fn tags_over<'x>(
    alloc: Global,
    devices: &'x [SiteDevice],
    own: &'x [ModelDef],
    defs: &'x [ModelDef],
    entries: &[Value],
    part: &mut SitePart,
) -> Result<Items<SiteTag>, SiteFault>
    ensures told { IfOk result
        (λ tags. tags_behind devices.now own.now defs.now [] (items_view entries.now) ≡ Ok (map tag_view tags)) }
    ensures refused { IfErr result (λ e. e ≢ fault.OutOfMemory
        → tags_behind devices.now own.now defs.now [] (items_view entries.now) ≡ Err e) }
    ensures placed { IfErr result (λ e. e ≢ fault.OutOfMemory
        → IsTagRefused devices.now own.now defs.now (items_view entries.now) part.new e) }
{
    let numbers = device_numbers(alloc, devices)?;
    let scope = Scope {
        devices,
        numbers: &numbers,
        own,
        defs,
    };
    read_tags(alloc, scope, entries, part)
}

/// What was read of a site file, section by section.
#[derive(Drop)]
struct Sections {
    gateway: Gateway,
    devices: Items<SiteDevice>,
    tags: Items<SiteTag>,
    served: Items<Served>,
    companions: Items<Option<usize>>,
}

/// The site of these parts, with what it looks up for its callers.
fn with_lookups(alloc: Global, defs: &[ModelDef], read: Sections) -> Result<Site, AllocError>
    requires { read.companions ≡ companions_of (map tag_view read.tags) }
    ensures { IfOk result
        (λ site. site_view site ≡ layout_over defs.now (gateway_view read.gateway) read.devices (map tag_view read.tags) read.companions read.served) }
{
    let Sections {
        gateway,
        devices,
        tags,
        served,
        companions,
    } = read;
    let wants = wants_of(alloc, tags.as_slice())?;
    let outs = outs_of(alloc, tags.as_slice())?;
    let lengths = lengths_of(alloc, gateway.models.as_slice(), defs, tags.as_slice())?;
    Ok(Site {
        unit: gateway.unit,
        base: gateway.base,
        models: gateway.models,
        devices,
        tags,
        served,
        companions,
        wants,
        outs,
        lengths,
    })
}

/// Whether a section is too long.
fn has_long_section(file: &Value) -> bool
    ensures { result ≡ has_long_section (view file.now) }
{
    has_over(MOST_DEVICES, "device", file)
        || has_over(MOST_TAGS, "tag", file)
        || has_over(MOST_SERVED, "served", file)
}

/// Whether the gateway has too many models.
fn has_many_models(file: &Value) -> bool
    ensures { result ≡ has_many_models (view file.now) }
{
    match file.get("gateway") {
        Some(gateway) => has_over(MOST_MODELS, "models", gateway),
        None => false,
    }
}
