//! Spans of whole numbers: what is known of a number by its least and its greatest value.
//!
//! Each operation answers a span that holds every result of members, so what is true of the span
//! is true of each result. The operations are those on whole numbers of IEC 61131-3 edition 2,
//! 2.5.1.5, where division and remainder cut toward zero.
//!
//! The operations take spans whose ends lie in LINT's range, -2^63 to 2^63 - 1, for which the
//! results fit 128 bits. A [`Span`] has at least one member. That nothing is left is `None` of an
//! `Option<Span>`, so there is one empty span.
#![tactic(auto)]

ghost use Rattle.std.specs.Prelude.{◌≡◌, ◌↔◌, ℤ, pos, ◌+ℤ◌, ◌-ℤ◌, ◌*ℤ◌, int_div, int_rem, IsTrue, IfSome};
ghost use Rattle.std.specs.Int.{int_min, int_max};

/// All numbers from `low` to `high`, both of them included; `low` is not over `high`.
#[derive(Clone, Copy, Debug, PartialEq, Eq, Hash)]
pub struct Span {
    pub low: i128,
    pub high: i128,
}

/// How a number stands to another one: the comparisons of IEC 61131-3 edition 2, 2.5.1.5.4.
#[derive(Clone, Copy, Debug, PartialEq, Eq, Hash)]
pub enum Relation {
    Gt,
    Ge,
    Eq,
    Ne,
    Le,
    Lt,
}

impl Span {
    ghost use Rattle.intervals.specs.Cut.{cut_of, left_between, low_without, high_without};
    ghost use Rattle.intervals.specs.Ends.{sum_of, difference_of, product_of, quotient_of, remainder_bound, remainder_of, lesser_of, greater_of, absolute_of, joined_of, span_of_four};
    ghost use Rattle.intervals.specs.Members.{IsIn, IsInSome, IsWithin, IsOfLint, HoldsResults, ReachesEnds, HoldsMagnitudes, ReachesMagnitudes, IsLeastOver, IsLeft, StandsToSome};

    /// The sums of a member of each span (ADD).
    pub fn add(self, other: Span) -> Span
        requires self_of_lint { IsOfLint self }
        requires other_of_lint { IsOfLint other }
        ensures ends { result ≡ sum_of self other }
        ensures holds { HoldsResults (λ x y. x +ℤ y) self other result }
        ensures reached { ReachesEnds (λ x y. x +ℤ y) self other result }
    {
        Span {
            low: self.low + other.low,
            high: self.high + other.high,
        }
    }

    /// The differences of a member and one of `other` (SUB).
    pub fn sub(self, other: Span) -> Span
        requires self_of_lint { IsOfLint self }
        requires other_of_lint { IsOfLint other }
        ensures ends { result ≡ difference_of self other }
        ensures holds { HoldsResults (λ x y. x -ℤ y) self other result }
        ensures reached { ReachesEnds (λ x y. x -ℤ y) self other result }
    {
        Span {
            low: self.low - other.high,
            high: self.high - other.low,
        }
    }

    /// The products of a member of each span (MUL).
    pub fn mul(self, other: Span) -> Span
        requires self_of_lint { IsOfLint self }
        requires other_of_lint { IsOfLint other }
        ensures ends { result ≡ product_of self other }
        ensures holds { HoldsResults (λ x y. x *ℤ y) self other result }
        ensures reached { ReachesEnds (λ x y. x *ℤ y) self other result }
    {
        Span::over(
            self.low * other.low,
            self.low * other.high,
            self.high * other.low,
            self.high * other.high,
        )
    }

    /// The quotients, cut toward zero, of a member by one of `other` (DIV).
    ///
    /// No divisor may be 0, of which [`Span::contains`] is the test.
    pub fn div(self, other: Span) -> Span
        requires self_of_lint { IsOfLint self }
        requires other_of_lint { IsOfLint other }
        requires no_zero_divisor { ¬ IsIn other (pos 0) }
        ensures ends { result ≡ quotient_of self other }
        ensures holds { HoldsResults int_div self other result }
        ensures reached { ReachesEnds int_div self other result }
    {
        Span::over(
            self.low / other.low,
            self.low / other.high,
            self.high / other.low,
            self.high / other.high,
        )
    }

    /// A span over the remainders of a member by one of `other` (MOD): `a - (a / b) * b`, which
    /// has the sign of `a`.
    ///
    /// Unlike the other operations it may hold more than the results. As in [`Span::div`] no
    /// divisor is 0.
    pub fn modulo(self, other: Span) -> Span
        requires self_of_lint { IsOfLint self }
        requires other_of_lint { IsOfLint other }
        requires no_zero_divisor { ¬ IsIn other (pos 0) }
        ensures ends { result ≡ remainder_of self other }
        ensures of_lint { IsOfLint result }
        ensures holds { HoldsResults int_rem self other result }
    {
        let bound = other.remainder_bound();
        Span {
            low: self.low.max(-bound).min(0),
            high: self.high.min(bound).max(0),
        }
    }

    /// The lesser ones of a member of each span (MIN).
    pub fn min(self, other: Span) -> Span
        requires self_of_lint { IsOfLint self }
        requires other_of_lint { IsOfLint other }
        ensures ends { result ≡ lesser_of self other }
        ensures of_lint { IsOfLint result }
        ensures holds { HoldsResults int_min self other result }
        ensures reached { ReachesEnds int_min self other result }
    {
        Span {
            low: self.low.min(other.low),
            high: self.high.min(other.high),
        }
    }

    /// The greater ones of a member of each span (MAX).
    pub fn max(self, other: Span) -> Span
        requires self_of_lint { IsOfLint self }
        requires other_of_lint { IsOfLint other }
        ensures ends { result ≡ greater_of self other }
        ensures of_lint { IsOfLint result }
        ensures holds { HoldsResults int_max self other result }
        ensures reached { ReachesEnds int_max self other result }
    {
        Span {
            low: self.low.max(other.low),
            high: self.high.max(other.high),
        }
    }

    /// The members without their signs (ABS).
    pub fn abs(self) -> Span
        requires { IsOfLint self }
        ensures ends { result ≡ absolute_of self }
        ensures holds { HoldsMagnitudes self result }
        ensures reached { ReachesMagnitudes self result }
    {
        let (low, high) = (self.low.abs(), self.high.abs());
        Span {
            low: if self.contains(0) { 0 } else { low.min(high) },
            high: low.max(high),
        }
    }

    /// The least span over both.
    pub fn join(self, other: Span) -> Span
        requires self_of_lint { IsOfLint self }
        requires other_of_lint { IsOfLint other }
        ensures ends { result ≡ joined_of self other }
        ensures of_lint { IsOfLint result }
        ensures least { IsLeastOver self other result }
    {
        let low = self.low.min(other.low);
        let high = self.high.max(other.high);
        Span { low, high }
    }

    /// Whether both ends lie in `other`.
    pub fn within(self, other: Span) -> bool
        ensures { IsTrue result ↔ IsWithin self other }
    {
        other.contains(self.low) && other.contains(self.high)
    }

    /// Whether `number` is a member.
    pub fn contains(self, number: i128) -> bool
        ensures { IsTrue result ↔ IsIn self number }
    {
        self.low <= number && number <= self.high
    }

    /// What is left of the span where its members stand in the relation to some member of
    /// `other`, or `None` where nothing is left.
    ///
    /// `Ne` takes away an end that is the one number of `other`. A number between the ends stays,
    /// since a span has no gaps.
    pub fn cut(self, relation: Relation, other: Span) -> Option<Span>
        requires self_of_lint { IsOfLint self }
        requires other_of_lint { IsOfLint other }
        ensures ends { result ≡ cut_of relation self other }
        ensures of_lint { IfSome result IsOfLint }
        ensures exact { (x : ℤ) → IsInSome result x ↔ (IsIn self x × IsLeft relation self other x) }
        ensures holds { (x : ℤ) → IsIn self x → StandsToSome relation other x → IsInSome result x }
    {
        let (low, high) = match relation {
            Relation::Gt => (self.low.max(other.low + 1), self.high),
            Relation::Ge => (self.low.max(other.low), self.high),
            Relation::Eq => (self.low.max(other.low), self.high.min(other.high)),
            Relation::Ne if other.low == other.high => self.ends_apart_from(other.low),
            Relation::Ne => (self.low, self.high),
            Relation::Le => (self.low, self.high.min(other.high)),
            Relation::Lt => (self.low, self.high.min(other.high - 1)),
        };
        Span::between(low, high)
    }

    /// The least span over four numbers.
    fn over(a: i128, b: i128, c: i128, d: i128) -> Span
        ensures { result ≡ span_of_four a b c d }
    {
        Span {
            low: a.min(b).min(c.min(d)),
            high: a.max(b).max(c.max(d)),
        }
    }

    /// The greatest magnitude of a remainder by a member.
    fn remainder_bound(self) -> i128
        requires { IsOfLint self }
        ensures { result ≡ remainder_bound self }
    {
        self.low.abs().max(self.high.abs()) - 1
    }

    /// The span from `low` to `high`, where there is one.
    fn between(low: i128, high: i128) -> Option<Span>
        ensures { result ≡ left_between low high }
    {
        if low <= high {
            Some(Span { low, high })
        } else {
            None
        }
    }

    /// The ends of what is left without `number`, where that is an end.
    fn ends_apart_from(self, number: i128) -> (i128, i128)
        requires { IsOfLint self }
        ensures low { result.0 ≡ low_without self number }
        ensures high { result.1 ≡ high_without self number }
    {
        let (mut low, mut high) = (self.low, self.high);
        if self.low == number {
            low += 1;
        }
        if self.high == number {
            high -= 1;
        }
        (low, high)
    }
}
