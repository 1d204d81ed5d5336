//! Set values that may lapse before a scan reads them.
use refusal_notes::{Notes, escaped};
use site_model::{Site, SiteTag};

/// Warns on standard error of each tag whose set value lapses in less than two scans, where one begins each so many
/// milliseconds. Where the warning can't be printed, or memory for it is refused, nothing comes of it.
pub fn warn_of_short_lapses(
    rt: &(impl Eprint + AllocGlobal),
    notes: &Notes<'_>,
    site: &Site,
    every: u64,
) {
    if notes.quiet {
        return;
    }
    for tag in site.tags() {
        match tag.lapse {
            Some(seconds) if is_short(seconds, every) => warn_of(rt, notes, tag, seconds),
            Some(_) | None => {}
        }
    }
}

fn is_short(seconds: u32, every: u64) -> bool {
    u64::from(seconds) * 1000 < every.saturating_mul(2)
}

fn warn_of(rt: &(impl Eprint + AllocGlobal), notes: &Notes<'_>, tag: &SiteTag, seconds: u32) {
    let alloc = rt.alloc();
    let name = tag.name.as_str();
    if let Ok(path) = escaped(alloc, notes.site_path) {
        if let Ok(line) = format!(in alloc;
            "{path}: warning: {name} lapses in {seconds} s, less than two scans: what clients set may be gone before the program reads it\n  help: write a longer lapse, or begin scans sooner with --every\n"
        ) {
            let _ = rt.eprint(line.as_str());
        }
    }
}
