//! Spans of whole numbers: of results, cut by comparisons, within one another.

ghost use Rattle.std.specs.Prelude.{◌≡◌};

use crate::tests::assert_same;
use intervals::{Relation, Span};
use std::process::Abort;

const LEAST: i128 = -9_223_372_036_854_775_808;

fn span(low: i128, high: i128) -> Span
    ensures { result ≡ record { low = low; high = high } }
{
    Span { low, high }
}

fn assert_spans(rt: &impl Abort, rows: &[(Span, i128, i128)]) {
    for (made, low, high) in rows {
        assert_same(rt, made, &span(*low, *high));
    }
}

#[test]
fn spans_of_sums_and_products(rt: HostRuntime) {
    assert_spans(
        &rt,
        &[
            (span(1, 2).add(span(10, 20)), 11, 22),
            (span(1, 2).sub(span(10, 20)), -19, -8),
            (span(-3, 2).mul(span(-5, 4)), -12, 15),
            (span(LEAST, 0).mul(span(LEAST, 1)), LEAST, LEAST * LEAST),
        ],
    );
}

#[test]
fn spans_of_quotients_and_rests(rt: HostRuntime) {
    assert_spans(
        &rt,
        &[
            (span(-7, 7).div(span(2, 3)), -3, 3),
            (span(-7, 9).div(span(-4, -2)), -4, 3),
            (span(LEAST, 1).div(span(-1, -1)), -1, -LEAST),
            (span(-7, 100).modulo(span(-5, -3)), -4, 4),
            (span(0, 3).modulo(span(10, 10)), 0, 3),
            (span(-9, -5).modulo(span(3, 3)), -2, 0),
        ],
    );
}

#[test]
fn spans_of_one_of_two(rt: HostRuntime) {
    assert_spans(
        &rt,
        &[
            (span(1, 9).min(span(3, 5)), 1, 5),
            (span(1, 9).max(span(3, 5)), 3, 9),
            (span(-7, 3).abs(), 0, 7),
            (span(-7, -3).abs(), 3, 7),
            (span(LEAST, -1).abs(), 1, -LEAST),
            (span(1, 2).join(span(8, 9)), 1, 9),
        ],
    );
}

fn assert_left(rt: &impl Abort, rows: &[(Option<Span>, Option<Span>)]) {
    for (left, want) in rows {
        assert_same(rt, left, want);
    }
}

#[test]
fn spans_that_are_cut(rt: HostRuntime) {
    let all = span(0, 10);
    assert_left(
        &rt,
        &[
            (all.cut(Relation::Gt, span(3, 5)), Some(span(4, 10))),
            (all.cut(Relation::Ge, span(3, 5)), Some(span(3, 10))),
            (all.cut(Relation::Eq, span(3, 5)), Some(span(3, 5))),
            (all.cut(Relation::Ne, span(3, 5)), Some(all)),
            (all.cut(Relation::Le, span(3, 5)), Some(span(0, 5))),
            (all.cut(Relation::Lt, span(3, 5)), Some(span(0, 4))),
        ],
    );
}

#[test]
fn spans_that_are_cut_at_an_end(rt: HostRuntime) {
    let all = span(0, 10);
    assert_left(
        &rt,
        &[
            (all.cut(Relation::Ne, span(0, 0)), Some(span(1, 10))),
            (all.cut(Relation::Ne, span(5, 5)), Some(all)),
            (all.cut(Relation::Ne, span(10, 10)), Some(span(0, 9))),
            (span(4, 4).cut(Relation::Ne, span(4, 4)), None),
            (span(5, 9).cut(Relation::Lt, span(1, 5)), None),
            (span(0, 1).cut(Relation::Eq, span(2, 3)), None),
        ],
    );
}

#[test]
fn spans_within_spans(rt: HostRuntime) {
    for (found, wanted) in [
        (span(0, 255).within(span(0, 255)), true),
        (span(-1, 255).within(span(0, 255)), false),
        (span(0, 256).within(span(0, 255)), false),
        (span(-1, 1).contains(0), true),
        (span(1, 2).contains(0), false),
    ] {
        assert_same(&rt, &found, &wanted);
    }
}
