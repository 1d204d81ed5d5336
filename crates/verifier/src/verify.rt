//! The verdict on a program for a site.
ghost use Rattle.std.specs.Prelude.{◌≡◌, ◌<◌, length, IfOk};
ghost use Rattle.verifier.specs.Judging.{IsVerdict, judged_of, judged_with, linked_frame, within_budget};
ghost use Rattle.verifier.specs.Listing.{listing_of};
ghost use Rattle.verifier.specs.Promise.{FitsFacts};
ghost use Rattle.verifier.specs.Safe.{NeverGoesWrong};
ghost use Rattle.facts.specs.Word.{AnswersOrWantsMemory};

use crate::budget::most_steps;
use crate::listing::listing;
use crate::pass::pass;
use crate::refused::Refused;
use crate::tag_link::{TagLink, links, ranges};
use crate::verified::Verified;
use facts::context::Context;
use facts::fact::Fact;
use facts::instructions::Instructions;
use facts::refusal::{Refusal, RefusalKind, RefusedAt};
use point_types::Items;
use scan_code::Image;
use site_model::Site;
use std::alloc::{AllocError, Global};

/// The greatest budget, in instructions of one scan.
const MOST_STEPS: usize = 1_000_000;

/// Judges a program against the tags of a site. What is accepted never goes wrong: whatever the readings,
/// each number in the range of the site's tag and one for each tag with a default, every number of scans
/// end without a trap and within the budget, with at most DEPTH deferred values, each variable in its
/// declared range, and each output that is set in the range of the site's tag, one that programs store
/// (IEC 61131-3 edition 2, 3.2).
///
/// Refused is the first tag that isn't the site's; else the first instruction that isn't one; else the
/// first that may go wrong; else a budget over 1,000,000. The image is handed back.
pub fn verify<const DEPTH: usize>(
    alloc: Global,
    image: Image,
    site: &Site,
) -> Result<Verified<DEPTH>, Refused>
    ensures verdict { IsVerdict DEPTH image site.now.tags result }
    ensures safe { IfOk result (λ accepted. NeverGoesWrong accepted) }
    ensures fits { IfOk result (λ accepted. FitsFacts DEPTH accepted) }
{
    let links = match links(alloc, site.tags(), image.tags.as_slice()) {
        Ok(links) => links,
        Err(refusal) => return Err(Refused::new(image, refusal)),
    };
    match judge(alloc, &image, links.as_slice(), DEPTH) {
        Ok(budget) => Ok(Verified {
            image,
            links,
            budget,
        }),
        Err(refusal) => Err(Refused::new(image, refusal)),
    }
}

/// The budget of a program whose tags are linked.
fn judge(alloc: Global, image: &Image, links: &[TagLink], depth: usize) -> Result<u32, Refusal>
    ensures { AnswersOrWantsMemory (λ budget. budget) (judged_with image.now links.now depth) result }
{
    let listing = match listed(alloc, image) {
        Ok(listing) => listing,
        Err(refusal) => return Err(refusal),
    };
    let context = frame_of(alloc, image, links, depth, listing)?;
    judge_frame(alloc, &context)
}

/// The instructions of an image; they are few, since each has a byte.
pub(crate) fn listed(alloc: Global, image: &Image) -> Result<Instructions, Refusal>
    ensures listed { AnswersOrWantsMemory (λ listing. listing) (listing_of image.now) result }
    ensures few { IfOk result (λ listing. length listing < 65536) }
{
    let _ = &image.code;
    listing(alloc, image)
}

/// What an image whose tags are linked is judged by.
pub(crate) fn frame_of(
    alloc: Global,
    image: &Image,
    links: &[TagLink],
    depth: usize,
    listing: Instructions,
) -> Result<Context, AllocError>
    ensures { IfOk result (λ context. context ≡ linked_frame image.now links.now depth listing) }
{
    Ok(Context {
        variables: Items::from_vec(Vec::from_slice(alloc, image.vars.as_slice())?),
        tags: ranges(alloc, links)?,
        depth,
        listing,
    })
}

/// The budget, where no instruction refuses.
fn judge_frame(alloc: Global, context: &Context) -> Result<u32, Refusal>
    requires { length context.now.listing < 65536 }
    ensures { AnswersOrWantsMemory (λ budget. budget) (judged_of context.now) result }
{
    let reached = match pass::<Fact>(alloc, context) {
        Ok(reached) => reached,
        Err(refusal) => return Err(refusal),
    };
    let steps = most_steps(alloc, context, reached.as_slice())?;
    within_budget(steps)
}

fn within_budget(steps: usize) -> Result<u32, Refusal>
    ensures { result ≡ within_budget steps }
{
    if steps <= MOST_STEPS {
        Ok(steps as u32)
    } else {
        Err(Refusal {
            at: RefusedAt::Program,
            kind: RefusalKind::OverBudget,
        })
    }
}
