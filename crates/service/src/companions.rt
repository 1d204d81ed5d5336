//! Which outputs go with which.
ghost use Rattle.std.specs.Prelude.{◌≡◌, IfOk, slice_get};
ghost use Rattle.service.specs.Pairing.{companion_by, companion_of, companions_of, output_by};

use site_model::Site;
use std::alloc::{AllocError, Global};

/// The output that one goes with, if any.
pub(crate) fn companion_of(site: &Site, output: usize) -> Option<usize>
    ensures { result ≡ companion_of site.now output }
{
    match tag_of(site, output) {
        Some(number) => companion_by(site, number),
        None => None,
    }
}

/// The same of each output of a site. AllocError where memory is refused.
pub(crate) fn companions_of(alloc: Global, site: &Site) -> Result<Vec<Option<usize>>, AllocError>
    ensures { IfOk result (λ companions. companions.items ≡ companions_of site.now) }
{
    site.outs()
        .iter()
        .map(|number| companion_by(site, *number))
        .collect(alloc)
}

/// The number of an output's tag.
fn tag_of(site: &Site, output: usize) -> Option<usize>
    ensures { result ≡ slice_get site.now.outs output }
{
    match site.outs().get(output) {
        Some(number) => Some(*number),
        None => None,
    }
}

/// The output that the tag with this number goes with.
fn companion_by(site: &Site, number: usize) -> Option<usize>
    ensures { result ≡ companion_by site.now number }
{
    match site.companion(number) {
        Some(companion) => output_by(site, companion),
        None => None,
    }
}

/// The output of the tag with this number.
fn output_by(site: &Site, tag: usize) -> Option<usize>
    ensures { result ≡ output_by site.now tag }
{
    site.outs().iter().position(|number| *number == tag)
}
