//! Site files that read, part by part.

use crate::tests::files::{LINES, SITE};
use crate::tests::{assert_same, assert_true, assert_true_at, definitions, edited, site_of};
use model_defs::{ModelDef, read};
use site_model::{Served, Site, SiteDevice, SiteFault, SiteTag, Source};
use std::alloc::{AllocError, Global};
use std::process::Abort;

fn device_line(alloc: Global, device: &SiteDevice) -> Result<String, AllocError> {
    let name = device.name.as_str();
    format!(in alloc;
        "device {name} {} {:?} {:?}\n",
        device.unit, device.base, device.write
    )
}

/// The numbers that a tag may have.
fn range_of(alloc: Global, tag: &SiteTag) -> Result<String, AllocError> {
    format!(in alloc;
        "{:?} {}..{} {:?} e{} {:?} {}",
        tag.kind, tag.low, tag.high, tag.default, tag.exponent, tag.bit, tag.down
    )
}

fn tag_line(rt: &impl Abort, alloc: Global, tag: &SiteTag) -> Result<String, AllocError> {
    let range = range_of(alloc, tag).expect(rt, "memory");
    format!(in alloc;
        "tag {} {:?} {} {:?} {} {:?} at {} {:?}\n",
        tag.name.as_str(),
        tag.access,
        range.as_str(),
        tag.device,
        tag.model,
        tag.point,
        tag.offset,
        tag.sf
    )
}

fn source_of(alloc: Global, source: &Source) -> Result<String, AllocError> {
    match source {
        Source::Raw(raw) => format!(in alloc; "value {raw}"),
        Source::Text(text) => format!(in alloc; "text {}", text.as_str()),
        Source::Sum(parts) => format!(in alloc; "sum {:?}", parts.as_slice()),
        Source::PartialSum(parts) => format!(in alloc; "partial sum {:?}", parts.as_slice()),
    }
}

fn served_line(rt: &impl Abort, alloc: Global, served: &Served) -> Result<String, AllocError> {
    let source = source_of(alloc, &served.source).expect(rt, "memory");
    format!(in alloc;
        "served {} {} {}\n",
        served.model,
        served.point,
        source.as_str()
    )
}

/// Adds a line that was made.
fn push(rt: &impl Abort, lines: &mut String, line: Result<String, AllocError>) {
    let line = line.expect(rt, "memory");
    lines.push_str(line.as_str()).expect(rt, "memory");
}

fn push_gateway(rt: &impl Abort, alloc: Global, lines: &mut String, site: &Site) {
    let gateway = format!(in alloc; "gateway {} {}\n", site.unit(), site.base());
    push(rt, lines, gateway);
    for model in site.models() {
        let line = format!(in alloc; "model {} {}\n", model.id, model.length);
        push(rt, lines, line);
    }
}

fn push_tags(rt: &impl Abort, alloc: Global, lines: &mut String, site: &Site) {
    for tag in site.tags() {
        push(rt, lines, tag_line(rt, alloc, tag));
    }
}

fn push_served(rt: &impl Abort, alloc: Global, lines: &mut String, site: &Site) {
    for served in site.served() {
        push(rt, lines, served_line(rt, alloc, served));
    }
}

/// What was read, a line for each part.
fn lines_of(rt: &impl Abort, alloc: Global, site: &Site) -> String {
    let mut lines = String::new(alloc);
    push_gateway(rt, alloc, &mut lines, site);
    for device in site.devices() {
        push(rt, &mut lines, device_line(alloc, device));
    }
    push_tags(rt, alloc, &mut lines, site);
    push_served(rt, alloc, &mut lines, site);
    lines
}

/// The lines of a text that is read.
fn read_lines(rt: &impl Abort, alloc: Global, defs: &[ModelDef], text: &str) -> String {
    lines_of(rt, alloc, &site_of(rt, alloc, defs, text))
}

#[test]
fn the_site_reads(rt: HostRuntime) {
    let defs = definitions(&rt, rt.alloc());
    let lines = read_lines(&rt, rt.alloc(), &defs, SITE);
    assert_same(&rt, &lines.as_str(), &LINES);
}

fn assert_line(rt: &impl Abort, alloc: Global, defs: &[ModelDef], text: &str, line: &str) {
    let lines = read_lines(rt, alloc, defs, text);
    let has_line = lines.as_str().lines().any(|found| found == line);
    assert_true_at(rt, has_line, &line);
}

/// The site file with an edit, its old and its new text, has a part that reads as this line.
static OPTIONS: [(&str, &str, &str); 6] = [
    ("base = 40000\n", "place = \"roof\"\n", "gateway 1 40000"),
    (
        "unit = 2",
        "unit = 2\nbase = 50000\nwrite = 6",
        "device inv2 2 Some(50000) Single",
    ),
    (
        "exponent = 0",
        "exponent = 0\nround = \"down\"",
        "tag inv1_w Input Dint -100000..100000 None e0 None true Some(0) 103 Int16 at 14 At(15)",
    ),
    (
        "point = \"W\"\ntype = \"DINT\"\nexponent = 0\nlow = -100000\nhigh = 100000",
        "point = \"Evt1\"\ntype = \"BOOL\"\nexponent = 0\nlow = 0\nhigh = 1\nbit = 30",
        "tag inv1_w Input Bool 0..1 None e0 Some(30) false Some(0) 103 Bitfield32 at 40 None",
    ),
    (
        "model = 123\npoint = \"WMaxLimPct_SF\"\nvalue = 0",
        "model = 1\npoint = \"Opt\"\ntext = \"0123456789abcdef\"",
        "served 1 4 text 0123456789abcdef",
    ),
    (
        "point = \"WMaxLimPct_SF\"\nvalue = 0",
        "point = \"WMaxLimPct_SF\"\nvalue = -11",
        "served 123 23 value -11",
    ),
];

#[test]
fn options_read(rt: HostRuntime) {
    let defs = definitions(&rt, rt.alloc());
    for edit in &OPTIONS {
        let (old, new, line) = *edit;
        let text = edited(&rt, rt.alloc(), SITE, old, new);
        assert_line(&rt, rt.alloc(), &defs, text.as_str(), line);
    }
}

/// A shorter model 103, with W after its factor and in two registers.
const SHORTER: &str =
    "{\"id\":103,\"group\":{\"points\":[{\"name\":\"ID\",\"type\":\"uint16\",\"size\":1},{\"name\":\"L\",\"type\":\"uint16\",\"size\":1},{\"name\":\"W_SF\",\"type\":\"sunssf\",\"size\":1},{\"name\":\"W\",\"type\":\"int32\",\"size\":2,\"sf\":\"W_SF\"}]}}";

fn assert_length(rt: &impl Abort, alloc: Global, defs: &[ModelDef], model: u16, length: u16) {
    let site = site_of(rt, alloc, defs, SITE);
    assert_same(rt, &site.length(model), &Some(length));
}

#[test]
fn the_last_definition_of_an_id_counts(rt: HostRuntime) {
    let mut defs = definitions(&rt, rt.alloc());
    let shorter = read(rt.alloc(), SHORTER.as_bytes()).expect(&rt, "a definition");
    defs.push(shorter).expect(&rt, "memory");
    assert_length(&rt, rt.alloc(), &defs, 103, 3);
    let line =
        "tag inv1_w Input Dint -100000..100000 None e0 None false Some(0) 103 Int32 at 3 At(2)";
    assert_line(&rt, rt.alloc(), &defs, SITE, line);
}

/// Whether a text is a site file; else it has a fault.
fn is_site(rt: &impl Abort, alloc: Global, defs: &[ModelDef], text: &str) -> bool {
    let fault = Site::read(alloc, text, defs).err();
    assert_true(rt, fault != Some(SiteFault::OutOfMemory));
    fault.is_none()
}

#[test]
fn each_prefix_is_answered(rt: HostRuntime) {
    let defs = definitions(&rt, rt.alloc());
    let mut sites = 0u32;
    for length in 0..=SITE.len() {
        let text = SITE.get(..length).expect(&rt, "a front");
        if is_site(&rt, rt.alloc(), &defs, text) {
            sites = sites.saturating_add(1);
        }
    }
    // at least the file, and the one without its last line end
    assert_true(&rt, sites >= 2);
}
