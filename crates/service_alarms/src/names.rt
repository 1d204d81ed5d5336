//! The names of what is told.
use site_model::Site;

/// The name of a device; empty where there is none of this number.
pub fn device_name(site: &Site, device: usize) -> &str {
    match site.devices().get(device) {
        Some(device) => device.name.as_str(),
        None => "",
    }
}

/// The name of an output's tag.
pub fn output_name(site: &Site, output: usize) -> &str {
    match site.outs().get(output) {
        Some(tag) => tag_name(site, *tag),
        None => "",
    }
}

/// The name of a tag; empty where there is none of this number.
pub fn tag_name(site: &Site, tag: usize) -> &str {
    match site.tags().get(tag) {
        Some(tag) => tag.name.as_str(),
        None => "",
    }
}
