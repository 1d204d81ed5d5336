//! The declared ranges with which a program begins.
ghost use Rattle.std.specs.Prelude.{◌≡◌, IfOk, false, map};
ghost use Rattle.facts.specs.Span.{Between};

use crate::present_inputs::PresentInputs;
use crate::span::Span;
use crate::tag_range::TagRange;
use point_types::{Items, Var};
use std::alloc::{AllocError, Global};

/// The declared range of each variable.
pub(crate) fn declared_ranges(alloc: Global, variables: &[Var]) -> Result<Items<Span>, AllocError>
    ensures { IfOk result (λ spans. spans ≡ map (λ d. Between d.low d.high) variables.now) }
{
    let mut spans = Vec::with_capacity(alloc, variables.len())?;
    for variable in variables {
        spans.push(declared_range(variable))?;
    }
    Ok(Items::from_vec(spans))
}

fn declared_range(variable: &Var) -> Span
    ensures { result ≡ Between variable.now.low variable.now.high }
{
    Span::between(variable.low, variable.high)
}

/// The range of each tag.
pub(crate) fn site_ranges(alloc: Global, tags: &[TagRange]) -> Result<Items<Span>, AllocError>
    ensures { IfOk result (λ spans. spans ≡ map (λ t. Between t.low t.high) tags.now) }
{
    let mut spans = Vec::with_capacity(alloc, tags.len())?;
    for tag in tags {
        spans.push(site_range(tag))?;
    }
    Ok(Items::from_vec(spans))
}

fn site_range(tag: &TagRange) -> Span
    ensures { result ≡ Between tag.now.low tag.now.high }
{
    Span::between(tag.low, tag.high)
}

/// Of each tag, that its input may be missing.
pub(crate) fn none_present(alloc: Global, tags: &[TagRange]) -> PresentInputs
    ensures { result ≡ map (λ t. false) tags.now }
{
    PresentInputs::none(alloc, tags.len())
}
