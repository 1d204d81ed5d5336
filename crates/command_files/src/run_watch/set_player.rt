//! What clients set in a run, asked before the scans for which it is said.
ghost use Rattle.std.specs.Prelude.{IfSome};
ghost use Rattle.modbus_frame.specs.Message.{IsRequest};

use crate::run_watch::RunLook;
use crate::run_watch::set_lines::{Said, Setting};
use commands::{ClientTurn, DEPTH, ScanClients};
use gateway::Core;
use modbus_frame::{Request, request_pdu};
use refusal_notes::escaped;
use site_model::{Access, SiteTag};
use std::alloc::{AllocError, Global};

/// Sets what is said for each scan, as clients' writes do, and knows what no client can set.
#[derive(Drop)]
pub struct SetPlayer<'r, R> {
    rt: &'r R,
    alloc: Global,
    quiet: bool,
    settings: &'r [Setting<'r>],
}

impl<'r, R: Eprint> SetPlayer<'r, R> {
    /// Sets these; where it is quiet, nothing is told.
    pub fn new(
        rt: &'r R,
        alloc: Global,
        quiet: bool,
        settings: &'r [Setting<'r>],
    ) -> SetPlayer<'r, R> {
        SetPlayer {
            rt,
            alloc,
            quiet,
            settings,
        }
    }

    /// Tells what no client can set in the turn of this number before a scan, and why.
    pub fn tell_refused<V: RunLook>(&self, core: &Core<DEPTH>, scan: u32, i: u32, beside: &mut V) {
        let Some(setting) = setting_at(core, self.settings, scan, i) else {
            return;
        };
        // what is set anew at each scan was told at its first one
        if setting.scan != scan {
            return;
        }
        if let Some(why) = why_unset(core, setting) {
            if !self.quiet {
                tell_unset(self.rt, self.alloc, setting, why);
            }
            beside.unset(setting, why);
        }
    }
}

impl<R: Eprint> ScanClients for SetPlayer<'_, R> {
    fn turn(&mut self, core: &Core<DEPTH>, scan: u32, i: u32) -> ClientTurn {
        let Some(setting) = setting_at(core, self.settings, scan, i) else {
            return ClientTurn::Rests;
        };
        match request_for(core, setting) {
            Some(request) => ClientTurn::Asks(request_pdu(&request)),
            None => ClientTurn::Passes,
        }
    }
}

/// Why what is said for a scan that doesn't come isn't set.
pub(crate) const LATE: &str = "the run ends before this scan";

/// Tells on standard error what is said for scans that don't come.
pub fn tell_late<R: Eprint>(rt: &R, alloc: Global, settings: &[Setting<'_>], scans: u32) {
    for setting in settings {
        if setting.scan > scans {
            tell_unset(rt, alloc, *setting, LATE);
        }
    }
}

fn tell_unset<R: Eprint>(rt: &R, alloc: Global, setting: Setting<'_>, why: &str) {
    if let Ok(note) = unset_note(alloc, setting, why) {
        let _ = rt.eprint(note.as_str());
    }
}

/// The i-th of the settings before a scan: those that are said for it, and those that are set anew since they would lapse.
fn setting_at<'a>(
    core: &Core<DEPTH>,
    settings: &[Setting<'a>],
    scan: u32,
    i: u32,
) -> Option<Setting<'a>> {
    let mut left = i;
    for setting in settings {
        if setting.scan == scan || is_renewed(core, *setting, scan) {
            match left.checked_sub(1) {
                Some(fewer) => left = fewer,
                None => return Some(*setting),
            }
        }
    }
    None
}

/// Whether a client goes on before this scan with what it began before: its tag lapses, and nothing else is said of that since.
fn is_renewed(core: &Core<DEPTH>, setting: Setting<'_>, scan: u32) -> bool {
    setting.scan < scan
        && scan < setting.until
        && setting.said != Said::Absent
        && lapses(core, setting.name)
}

fn lapses(core: &Core<DEPTH>, name: &str) -> bool {
    match tag_named(core, name) {
        Some(tag) => tag.lapse.is_some(),
        None => false,
    }
}

/// The request by which a client sets it; None where no client can.
fn request_for(core: &Core<DEPTH>, setting: Setting<'_>) -> Option<Request>
    ensures { IfSome result IsRequest }
{
    let tag = core.site().tag(setting.name)?;
    match setting.said {
        Said::Number(number) => core.request_to_set(tag, number),
        Said::Absent => None,
    }
}

/// `scan K: NAME=NUMBER isn't set: WHY`, or `NAME=absent`.
fn unset_note(alloc: Global, setting: Setting<'_>, why: &str) -> Result<String, AllocError> {
    let name = escaped(alloc, setting.name)?;
    let said = said_text(alloc, setting.said)?;
    let (scan, name, said) = (setting.scan, name.as_str(), said.as_str());
    format!(in alloc; "scan {scan}: {name}={said} isn't set: {why}\n")
}

/// What is said of a tag, as it stands in the file.
fn said_text(alloc: Global, said: Said) -> Result<String, AllocError> {
    match said {
        Said::Number(number) => number.to_string(alloc),
        Said::Absent => String::from_str(alloc, "absent"),
    }
}

/// Why no client can do what is said; none where there is nothing to do for it.
fn why_unset(core: &Core<DEPTH>, setting: Setting<'_>) -> Option<&'static str> {
    match tag_named(core, setting.name) {
        None => Some("the site has no tag of this name"),
        Some(tag) if tag.access != Access::Setting => Some("the tag isn't one that clients set"),
        Some(tag) => why_unsaid(tag, setting.said),
    }
}

fn why_unsaid(tag: &SiteTag, said: Said) -> Option<&'static str> {
    match said {
        Said::Number(number) if number < tag.low || tag.high < number => {
            Some("it is outside the tag's range")
        }
        Said::Number(_) => Some("its point can't say it by the factor that is served"),
        Said::Absent if tag.lapse.is_none() => Some("what clients set it to never lapses"),
        Said::Absent => None,
    }
}

fn tag_named<'c>(core: &'c Core<DEPTH>, name: &str) -> Option<&'c SiteTag> {
    core.site().tags().get(core.site().tag(name)?)
}
