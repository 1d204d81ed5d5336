//! What warnings of several rooms say alike.
use refusal_notes::{Notes, escaped};
use site_model::Site;
use std::alloc::{AllocError, Global};

/// Prints `PATH: warning: ` and two texts.
pub(crate) fn warn(rt: &(impl Eprint + AllocGlobal), notes: &Notes<'_>, what: &str, end: &str) {
    let alloc = rt.alloc();
    if let Ok(path) = escaped(alloc, notes.site_path) {
        if let Ok(line) = format!(in alloc; "{path}: warning: {what}{end}\n") {
            let _ = rt.eprint(line.as_str());
        }
    }
}

/// What is wrong with a device, of which this is said.
pub fn device_fault(
    alloc: Global,
    site: &Site,
    device: usize,
    why: &str,
) -> Result<String, AllocError> {
    let name = match site.devices().get(device) {
        Some(device) => device.name.as_str(),
        None => "",
    };
    let name = escaped(alloc, name)?;
    let text = format!(in alloc; "device '{name}' {why}")?;
    Ok(text)
}

/// What is wrong with a tag, of which this is said.
pub fn tag_fault(alloc: Global, site: &Site, tag: usize, why: &str) -> Result<String, AllocError> {
    let name = match site.tags().get(tag) {
        Some(tag) => tag.name.as_str(),
        None => "",
    };
    let text = format!(in alloc; "tag '{name}' {why}")?;
    Ok(text)
}
