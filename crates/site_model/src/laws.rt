//! Laws: what a site file says of a site.
ghost use Rattle.site_model.specs.Told.{SitesAreTold};

/// A site that is read is the one that its file says, entry by entry: its gateway, its devices and its tags, with what each
/// key gives.
pub fn sites_are_told()
    ensures { SitesAreTold }
{}
