//! Where memory is refused, a call says so and nothing else. Each test holds whichever of its allocations is refused: it
//! ends where it gets no memory for what it begins with.

use crate::tests::files::SITE;
use crate::tests::{assert_same, assert_true, given_definitions};
use file_keys::TomlFile;
use model_defs::ModelDef;
use site_model::{Site, SiteFault};
use std::alloc::Global;
use std::process::Abort;

/// The site has its devices, tags, wanted blocks and outputs, and what it serves.
fn assert_site(rt: &impl Abort, site: &Site) {
    assert_same(rt, &site.devices().len(), &2);
    assert_same(rt, &site.tags().len(), &5);
    assert_same(rt, &site.wants().len(), &3);
    assert_true(rt, site.outs() == [3, 4].as_slice());
    assert_same(rt, &site.served().len(), &3);
}

fn assert_reads(rt: &impl Abort, alloc: Global, defs: &[ModelDef]) {
    match Site::read(alloc, SITE, defs) {
        Ok(site) => assert_site(rt, &site),
        Err(fault) => assert_same(rt, &fault, &SiteFault::OutOfMemory),
    }
}

#[test]
fn a_site_reads(rt: HostRuntime) {
    if let Some(defs) = given_definitions(rt.alloc()) {
        assert_reads(&rt, rt.alloc(), &defs);
    }
}

/// A place that gets no memory is none; the fault stays.
#[test]
fn a_site_is_refused(rt: HostRuntime) {
    let Some(defs) = given_definitions(rt.alloc()) else {
        return;
    };
    let text = "[gateway]\nunit = 300\nmodels = [1]\n";
    let Ok(file) = TomlFile::parse(rt.alloc(), text) else {
        return;
    };
    if let Some(refused) = Site::read_file(rt.alloc(), &file, &defs).err() {
        let is_memory = refused.fault == SiteFault::OutOfMemory;
        assert_true(&rt, is_memory || refused.fault == SiteFault::BadRange);
    }
}
