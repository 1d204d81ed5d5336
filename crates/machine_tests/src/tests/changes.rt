//! Spans by their changes.

use crate::tests::assert_same;
use facts::instructions::Instructions;
use point_types::{IlType, Items};
use std::alloc::Global;
use std::process::Abort;
use verifier::abstract_value::AbstractValue;
use verifier::changed_spans::ChangedSpans;
use verifier::context::Context;
use verifier::fact::Fact;
use verifier::present_inputs::PresentInputs;
use verifier::span::Span;

/// Four spans from 0 to 9.
fn four(rt: &impl Abort, alloc: Global) -> ChangedSpans {
    let mut spans = Items::new(alloc);
    for _ in 0..4 {
        spans.push(Span::between(0, 9)).expect(rt, "memory");
    }
    ChangedSpans::at_entry(alloc, spans).expect(rt, "memory")
}

fn assert_span(rt: &impl Abort, spans: &ChangedSpans, number: usize, wanted: Span) {
    assert_same(rt, &spans.get(number), &Some(wanted));
}

/// With the third span 5 to 5.
fn changed(rt: &impl Abort, alloc: Global, entry: &ChangedSpans) -> ChangedSpans {
    entry.with(alloc, 2, Span::only(5)).expect(rt, "memory")
}

fn assert_changed(rt: &impl Abort, spans: &ChangedSpans) {
    assert_span(rt, spans, 2, Span::only(5));
    assert_span(rt, spans, 3, Span::between(0, 9));
    assert_same(rt, &spans.get(4), &None);
}

/// Joined with the spans at entry, they are those again.
fn assert_joined(rt: &impl Abort, alloc: Global, spans: &ChangedSpans, entry: &ChangedSpans) {
    let both = spans.joined(alloc, entry).expect(rt, "memory");
    assert_span(rt, &both, 2, Span::between(0, 9));
}

#[test]
fn a_span_is_that_at_entry_where_nothing_changed_it(rt: HostRuntime) {
    let entry = four(&rt, rt.alloc());
    assert_span(&rt, &entry, 2, Span::between(0, 9));
    let one = changed(&rt, rt.alloc(), &entry);
    assert_changed(&rt, &one);
    assert_joined(&rt, rt.alloc(), &one, &entry);
}

/// A context of nothing.
fn empty_frame(rt: &impl Abort, alloc: Global) -> Context {
    Context {
        variables: Items::new(alloc),
        tags: Items::new(alloc),
        depth: 0,
        listing: Instructions::of(alloc, Items::new(alloc)).expect(rt, "memory"),
    }
}

/// Four variables and as many inputs, of which nothing more is known.
fn fact(rt: &impl Abort, alloc: Global) -> Fact {
    let variables = four(rt, alloc);
    let inputs = four(rt, alloc);
    Fact {
        variables,
        inputs,
        present: PresentInputs::none(alloc, 4),
        deferred: Items::new(alloc),
        result: None,
    }
}

/// The same, where 5 is stored in the second variable.
fn stored(rt: &impl Abort, alloc: Global) -> Fact {
    let context = empty_frame(rt, alloc);
    let five = AbstractValue::plain(alloc, &context, IlType::Int, Span::only(5));
    let stored = fact(rt, alloc).stored(alloc, 1, five);
    stored.expect(rt, "memory")
}

fn assert_stored(rt: &impl Abort, fact: &Fact) {
    assert_span(rt, &fact.variables, 1, Span::only(5));
    assert_span(rt, &fact.variables, 0, Span::between(0, 9));
    assert_span(rt, &fact.inputs, 1, Span::between(0, 9));
}

#[test]
fn a_store_changes_one_span(rt: HostRuntime) {
    assert_stored(&rt, &stored(&rt, rt.alloc()));
}
