//! Quantities of which those who look are shown no history.
use history::{bytes_of, quantities_in};
use service_loop::{PageWindow, quantities_of};
use site_model::Site;

/// Says on standard error of how many of a site's quantities there is no history, where it has more than there is room for. Where
/// that can't be printed, or memory for it is refused, nothing comes of it.
pub(crate) fn warn_of_short_history(
    rt: &(impl Eprint + AllocGlobal),
    window: PageWindow<'_>,
    site: &Site,
) {
    let all = quantities_of(site);
    let left = all.saturating_sub(quantities_in(window.memory));
    if left == 0 {
        return;
    }
    let alloc = rt.alloc();
    let wanted = bytes_of(all);
    // the first one is how many instructions scans take
    let tags = all.saturating_sub(1);
    if let Ok(line) = format!(in alloc;
        "'--page' shows no history of the last {left} of {tags} tags and sums: '--page-memory {wanted}' has room for all\n"
    ) {
        let _ = rt.eprint(line.as_str());
    }
}
