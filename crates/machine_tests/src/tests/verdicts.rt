//! Verdicts on whole images, against a site of two inverters.

use crate::tests::full::{first_difference, full_pass};
use crate::tests::rows::{judge_results, judge_tags_and_code, judge_ways};
use crate::tests::{assert_same, assert_true, name};
use crate::worked::images::{image, variable};
use crate::worked::programs::Program;
use crate::worked::sites::{SITE, site_of};
use point_types::{IlType, Items, Var};
use scan_code::Image;
use site_model::Site;
use std::alloc::Global;
use std::process::Abort;
use verifier::budget::most_steps;
use verifier::context::Context;
use verifier::listing::listing;
use verifier::refusal::{Refusal, RefusalKind};
use verifier::tag_link::{links, ranges};
use verifier::verified::Verified;
use verifier::verify::verify;

/// A site with a wider range of the output.
static WIDER: &str = r#"[gateway]
unit = 1
base = 40000
models = [1]

[[device]]
name = "inv1"
unit = 1

[[tag]]
name = "lim1"
access = "out"
device = "inv1"
model = 123
point = "WMaxLimPct"
type = "INT"
exponent = 0
low = 0
high = 110
"#;

pub(crate) fn site(rt: &impl Abort, alloc: Global) -> Site {
    site_of(alloc, SITE).expect(rt, "a site")
}

/// The budget, or why an image is refused and where.
pub(crate) type Verdict = Result<u32, (RefusalKind, usize)>;

fn verdict<const DEPTH: usize>(alloc: Global, image: Image, site: &Site) -> Verdict {
    match verify::<DEPTH>(alloc, image, site) {
        Ok(verified) => Ok(verified.budget()),
        Err(refused) => Err((refused.kind, refused.at.number())),
    }
}

pub(crate) fn assert_verdict<const DEPTH: usize>(
    rt: &impl Abort,
    alloc: Global,
    image: Image,
    site: &Site,
    wanted: &Verdict,
) {
    assert_same(rt, &verdict::<DEPTH>(alloc, image, site), wanted);
}

pub(crate) fn image_of(rt: &impl Abort, alloc: Global, program: &Program) -> Image {
    image(alloc, 2, program, &[]).expect(rt, "an image")
}

/// What is fixed while a program is judged by 32 deferred values at most.
fn frame_of(
    rt: &impl Abort,
    alloc: Global,
    image: &Image,
    site: &Site,
) -> Result<Context, Refusal> {
    let links = links(alloc, site.tags(), image.tags.as_slice())?;
    let listing = listing(alloc, image)?;
    let variables = Vec::from_slice(alloc, image.vars.as_slice());
    Ok(Context {
        variables: Items::from_vec(variables.expect(rt, "memory")),
        tags: ranges(alloc, links.as_slice())?,
        depth: 32,
        listing,
    })
}

/// The budget by full facts, or why the program is refused and where; what is known before each instruction is what the
/// verifier knows there.
fn judged_in(
    rt: &impl Abort,
    alloc: Global,
    context: &Context,
) -> Result<usize, (RefusalKind, usize)> {
    assert_same(rt, &first_difference(rt, alloc, context), &None);
    assert!(rt; context.size() < 65_536);
    let passed = full_pass(alloc, context).expect(rt, "memory");
    if let Some((at, kind)) = passed.refusal {
        return Err((kind, at));
    }
    let reached = passed.reached(alloc).expect(rt, "memory");
    assert!(rt; reached.len() == context.size());
    let steps = most_steps(alloc, context, reached.as_slice());
    Ok(steps.expect(rt, "memory"))
}

fn judged(
    rt: &impl Abort,
    alloc: Global,
    image: &Image,
    site: &Site,
) -> Result<usize, (RefusalKind, usize)> {
    match frame_of(rt, alloc, image, site) {
        Ok(context) => judged_in(rt, alloc, &context),
        Err(refusal) => Err((refusal.kind, refusal.at.number())),
    }
}

fn as_judged(verdict: Verdict) -> Result<usize, (RefusalKind, usize)> {
    match verdict {
        Ok(budget) => Ok(budget as usize),
        Err(refused) => Err(refused),
    }
}

fn assert_judged(
    rt: &impl Abort,
    alloc: Global,
    image: &Image,
    site: &Site,
    wanted: &Result<usize, (RefusalKind, usize)>,
) {
    assert_same(rt, &judged(rt, alloc, image, site), wanted);
}

/// A program has this verdict, by the changes alone and by full facts.
pub(crate) fn judge(
    rt: &impl Abort,
    alloc: Global,
    site: &Site,
    program: &Program,
    wanted: Verdict,
) {
    let image = image_of(rt, alloc, program);
    assert_judged(rt, alloc, &image, site, &as_judged(wanted));
    assert_verdict::<32>(rt, alloc, image, site, &wanted);
}

fn judge_programs(rt: &impl Abort, alloc: Global, site: &Site) {
    judge_results(rt, alloc, site);
    judge_ways(rt, alloc, site);
    judge_tags_and_code(rt, alloc, site);
}

#[test]
fn judges_programs_by_both_kinds_of_facts(rt: HostRuntime) {
    judge_programs(&rt, rt.alloc(), &site(&rt, rt.alloc()));
}

/// So many variables: the names are v0, v1 and so on.
fn add_flags(rt: &impl Abort, alloc: Global, vars: &mut Items<Var>, count: u16) {
    for n in 0..count {
        let text = format!(in alloc; "v{n}").expect(rt, "memory");
        let var = variable(name(rt, text.as_str()), IlType::Bool, 0, 1, 0);
        vars.push(var.expect(rt, "a variable")).expect(rt, "memory");
    }
}

/// LD v0 / JMPCN to the next / ST v0, so many times.
fn labelled(rt: &impl Abort, alloc: Global, count: u16) -> Vec<u8> {
    let mut code = Vec::new(alloc);
    for k in 1..=count {
        let [high, low] = k.wrapping_mul(9).to_be_bytes();
        let three = [1, 0, 0, 0x23, high, low, 6, 0, 0];
        code.extend_from_slice(&three).expect(rt, "memory");
    }
    code.push(0).expect(rt, "memory");
    code
}

/// 1,000 variables, of which one is stored, and 900 labels.
fn large(rt: &impl Abort, alloc: Global) -> Image {
    let mut vars = Items::new(alloc);
    add_flags(rt, alloc, &mut vars, 1000);
    let code = Items::from_vec(labelled(rt, alloc, 900));
    Image::new(1, vars, Items::new(alloc), code).expect(rt, "an image")
}

#[test]
fn judges_a_large_program(rt: HostRuntime) {
    let site = site(&rt, rt.alloc());
    let image = large(&rt, rt.alloc());
    assert_verdict::<32>(&rt, rt.alloc(), image, &site, &Ok(2701));
}

/// A program of one END with the limit as its tag.
static ENDING: Program = Program {
    version: 1,
    vars: &[],
    tags: &[("lim1", true, IlType::Int)],
    code: &[0],
};

fn accepted(rt: &impl Abort, alloc: Global, site: &Site) -> Verified<32> {
    let image = image(alloc, 1, &ENDING, &[]).expect(rt, "an image");
    verify::<32>(alloc, image, site).ok().expect(rt, "a yes")
}

fn assert_told(rt: &impl Abort, verified: &Verified<32>, site: &Site) {
    assert_same(rt, &verified.budget(), &1);
    assert_same(rt, &verified.image().code.len(), &1);
    assert_same(rt, &verified.links().len(), &1);
    assert_true(rt, verified.matches(site));
}

fn matches_wider(rt: &impl Abort, alloc: Global, verified: &Verified<32>) -> bool {
    let wider = site_of(alloc, WIDER).expect(rt, "a site");
    verified.matches(&wider)
}

fn assert_accepted(rt: &impl Abort, alloc: Global, site: &Site) {
    let verified = accepted(rt, alloc, site);
    assert_told(rt, &verified, site);
    assert_true(rt, !matches_wider(rt, alloc, &verified));
}

#[test]
fn tells_what_was_accepted(rt: HostRuntime) {
    assert_accepted(&rt, rt.alloc(), &site(&rt, rt.alloc()));
}
