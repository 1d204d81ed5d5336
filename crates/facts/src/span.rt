//! The numbers that a value may be: a span from a low end to a high end, or none.
ghost use Rattle.std.specs.Prelude.{◌≡◌, ◌≤ℤ◌, not, ◌&&◌, pos, IsTrue};
ghost use Rattle.intervals.specs.Members.{IsIn, IsOfLint, IsOrdered};
ghost use Rattle.facts.specs.Fitting.{divides, fitting};
ghost use Rattle.intervals.specs.Cut.{left_between};
ghost use Rattle.facts.specs.Flow.{truths};
ghost use Rattle.facts.specs.Span.{intersected, left_of, operated_ends, spanning};

use intervals::Relation;
use point_types::{IlType, Operator};
use std::marker::Model;

/// What is left of the numbers of LINT: those from one to another, both of them included, or none.
/// There is one span that is empty.
#[derive(Clone, Copy, PartialEq, Eq, Debug)]
pub struct Span {
    left: Option<intervals::Span>,
}

impl Model for Span {
    ghost use Rattle.std.specs.Prelude.{◌≡◌};
    ghost use Rattle.facts.specs.Span.{Span as Numbers, left_of, interval_of, back_again, IsOfLintIfAny};

    ghost Value = { Numbers };

    ghost view = { λ s. left_of s.left };

    ghost invariant = { λ s. IsOfLintIfAny s.left };

    ghost inverse = { λ v. record { left = interval_of v } };

    ghost inverse_ok = { λ s h i. record { left = back_again s.left i } };
}

impl Span {
    ghost use Rattle.std.specs.Prelude.{◌≡◌, ◌≤ℤ◌, not, ◌&&◌, pos, IsTrue};
    ghost use Rattle.point_types.specs.declared.operator.Operator.TheVariants as op;
    ghost use Rattle.facts.specs.Fact.{is_empty, same_span};
    ghost use Rattle.facts.specs.Fitting.{divides, fitting};
    ghost use Rattle.facts.specs.Flow.{flipped};
    ghost use Rattle.facts.specs.Span.{Empty, Between, absolute_span, cut_by, has_member, intersected, joined, lies_in, only, operated};

    /// No number.
    pub fn empty() -> Span
        ensures { result ≡ Empty }
    {
        Span { left: None }
    }

    /// One number.
    pub fn only(number: i64) -> Span
        ensures { result ≡ only number }
    {
        Span::between(number, number)
    }

    /// The numbers from `low` to `high`.
    pub fn between(low: i64, high: i64) -> Span
        requires { low ≤ℤ high }
        ensures { result ≡ Between low high }
    {
        let (low, high) = (low as i128, high as i128);
        Span {
            left: Some(intervals::Span { low, high }),
        }
    }

    /// Whether no number is left.
    pub fn is_empty(self) -> bool
        ensures { result ≡ is_empty self }
    {
        self.left.is_none()
    }

    /// Whether both have the same members.
    pub(crate) fn same(self, other: Span) -> bool
        ensures { result ≡ same_span self other }
    {
        match (self.left, other.left) {
            (None, None) => true,
            (Some(one), Some(two)) => one.low == two.low && one.high == two.high,
            _ => false,
        }
    }

    /// Whether a number is a member.
    pub fn has_member(self, number: i64) -> bool
        ensures { result ≡ has_member number self }
    {
        match self.left {
            Some(span) => span.low <= number as i128 && number as i128 <= span.high,
            None => false,
        }
    }

    /// Whether all members lie between `low` and `high`, both of them included.
    pub fn lies_in(self, low: i64, high: i64) -> bool
        ensures { result ≡ lies_in self low high }
    {
        match self.left {
            Some(span) => low as i128 <= span.low && span.high <= high as i128,
            None => true,
        }
    }

    /// The least span over both.
    pub fn joined(self, other: Span) -> Span
        ensures { result ≡ joined self other }
    {
        match (self.left, other.left) {
            (None, _) => other,
            (Some(_), None) => self,
            (Some(one), Some(two)) => Span {
                left: Some(one.join(two)),
            },
        }
    }

    /// What is left where the members stand in the relation to some member of `other`.
    pub fn cut_by(self, relation: Relation, other: Span) -> Span
        ensures { result ≡ cut_by relation self other }
    {
        match (self.left, other.left) {
            (Some(one), Some(two)) => Span {
                left: one.cut(relation, two),
            },
            _ => Span::empty(),
        }
    }

    /// The members of both.
    pub fn intersected(self, other: Span) -> Span
        ensures { result ≡ intersected self other }
    {
        self.cut_by(Relation::Eq, other)
    }

    /// Of a truth's span that of its opposite; 0 is FALSE and 1 is TRUE.
    pub fn flipped(self) -> Span
        ensures { result ≡ flipped self }
    {
        let one = intervals::Span { low: 1, high: 1 };
        match self.left {
            Some(span) => truths_of(one.sub(span)),
            None => self,
        }
    }

    /// The numbers that an operator makes of members of both, where all lie in the type's range; of
    /// truths for AND and OR. No divisor of DIV and MOD may be 0.
    pub(crate) fn operated(self, o: Operator, other: Span, kind: IlType) -> Option<Span>
        requires { IsTrue (not (divides o && has_member (pos 0) other)) }
        ensures { result ≡ fitting kind (operated o self other) }
    {
        match (self.left, other.left) {
            (Some(one), Some(two)) => fitted(ends_of(o, one, two), kind),
            _ => Some(Span::empty()),
        }
    }

    /// What AND makes of truths.
    pub fn both(self, other: Span) -> Span
        ensures { result ≡ operated op.And self other }
    {
        match (self.left, other.left) {
            (Some(one), Some(two)) => Span {
                left: Some(one.min(two)),
            },
            _ => Span::empty(),
        }
    }

    /// What OR makes of truths.
    pub fn either(self, other: Span) -> Span
        ensures { result ≡ operated op.Or self other }
    {
        match (self.left, other.left) {
            (Some(one), Some(two)) => Span {
                left: Some(one.max(two)),
            },
            _ => Span::empty(),
        }
    }

    /// The members without their signs, where all lie in the type's range.
    pub fn absolute(self, kind: IlType) -> Option<Span>
        ensures { result ≡ fitting kind (absolute_span self) }
    {
        match self.left {
            Some(span) => fitted(span.abs(), kind),
            None => Some(self),
        }
    }
}

/// The ends of what an operator makes of members of both.
fn ends_of(o: Operator, one: intervals::Span, two: intervals::Span) -> intervals::Span
    requires one_of_lint { IsOfLint one }
    requires two_of_lint { IsOfLint two }
    requires no_zero_divisor { IsTrue (divides o) → ¬ IsIn two (pos 0) }
    ensures ends { result ≡ operated_ends o one two }
    ensures ordered { IsOrdered result }
{
    match o {
        Operator::Add => one.add(two),
        Operator::Sub => one.sub(two),
        Operator::Mul => one.mul(two),
        Operator::Div => one.div(two),
        Operator::Mod => one.modulo(two),
        Operator::And | Operator::Min => one.min(two),
        Operator::Or | Operator::Max => one.max(two),
        Operator::Xor
        | Operator::Gt
        | Operator::Ge
        | Operator::Eq
        | Operator::Ne
        | Operator::Le
        | Operator::Lt => intervals::Span { low: 0, high: 1 },
    }
}

/// The span of these ends, where they lie in the type's range.
fn fitted(ends: intervals::Span, kind: IlType) -> Option<Span>
    requires { IsOrdered ends }
    ensures { result ≡ fitting kind (spanning ends) }
{
    let (low, high) = (kind.low() as i128, kind.high() as i128);
    if low <= ends.low && ends.high <= high {
        Some(Span { left: Some(ends) })
    } else {
        None
    }
}

/// The members that are 0 or 1.
fn truths_of(ends: intervals::Span) -> Span
    ensures { result ≡ intersected (spanning ends) truths }
{
    left_between(ends.low.max(0), ends.high.min(1))
}

/// The truths from `low` to `high`.
fn left_between(low: i128, high: i128) -> Span
    requires least { pos 0 ≤ℤ low }
    requires greatest { high ≤ℤ pos 1 }
    ensures { result ≡ left_of (left_between low high) }
{
    if low <= high {
        Span {
            left: Some(intervals::Span { low, high }),
        }
    } else {
        Span::empty()
    }
}

ghost use Rattle.facts.specs.Ends.{absolute_ends, ends, made_ends};

impl Span {
    /// The least and the greatest member, if there is one.
    pub fn ends(self) -> Option<(i64, i64)>
        ensures { result ≡ ends self }
    {
        match self.left {
            Some(span) => Some((span.low as i64, span.high as i64)),
            None => None,
        }
    }

    /// The least and the greatest number that an operator makes of members of both, before they are held
    /// against a type; None where there is none, or where a divisor may be 0.
    pub fn operated_ends(self, o: Operator, other: Span) -> Option<(i128, i128)>
        ensures { result ≡ made_ends o self other }
    {
        if divides(o) && other.has_member(0) {
            return None;
        }
        match (self.left, other.left) {
            (Some(one), Some(two)) => Some(pair_of(ends_of(o, one, two))),
            _ => None,
        }
    }

    /// The least and the greatest number that ABS makes of members, before they are held against a type.
    pub fn absolute_ends(self) -> Option<(i128, i128)>
        ensures { result ≡ absolute_ends self }
    {
        match self.left {
            Some(span) => Some(pair_of(span.abs())),
            None => None,
        }
    }
}

/// Whether an operator wants a divisor that isn't 0.
fn divides(o: Operator) -> bool
    ensures { result ≡ divides o }
{
    matches!(o, Operator::Div | Operator::Mod)
}

fn pair_of(ends: intervals::Span) -> (i128, i128)
    ensures { result ≡ (ends.low, ends.high) }
{
    (ends.low, ends.high)
}
