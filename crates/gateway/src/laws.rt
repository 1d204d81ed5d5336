//! What is proved of the definitions that the contracts cite; the functions do nothing.

ghost use Rattle.gateway.specs.Laws.{AtMostOneServedImage, ScansFollowTheSiteRun, SitesWithoutCompanionsWriteInOrder, SitesWithoutLapsesKeepWhatIsSet, WritesAreSetPoints};

/// A site, the last scan and what clients set have one served image at most.
pub fn served_images_are_exact()
    ensures { AtMostOneServedImage }
{}

/// After a scan over a link the core stands at the site run of what came of the wanted blocks, and then of the scan.
pub fn scans_follow_the_site_run()
    ensures { ScansFollowTheSiteRun }
{}

/// Where no tag of a site lapses, time takes nothing away that clients set.
pub fn sites_without_lapses_keep_what_is_set()
    ensures { SitesWithoutLapsesKeepWhatIsSet }
{}

/// What a scan over a link writes for an output is a set point of the site's tag of that output, for the number that the
/// program stored, which lies in the tag's range.
pub fn writes_are_set_points()
    ensures { WritesAreSetPoints }
{}

/// Where no output of a site goes with another one, a scan over a link gives each of them its turn, in the order of the site.
pub fn sites_without_companions_write_in_order()
    ensures { SitesWithoutCompanionsWriteInOrder }
{}
