//! The spans of the variables that differ from their declared ranges.
ghost use Rattle.std.specs.Prelude.{◌≡◌, ◌∷◌, [], ◌++◌, IfOk, OnOk, slice_get, slice_set};
ghost use Rattle.facts.specs.Overlay.{at_entry, change, shown};
ghost use Rattle.facts.specs.Places.{IsNext};
ghost use Rattle.facts.specs.Span.{joined};

use crate::span::Span;
use crate::sparse_list::{Rest, SparseList, next_with, number_behind};
use point_types::Items;
use std::alloc::{AllocError, Global};
use std::marker::Model;
use std::rc::Rc;

/// The span of each variable or of each tag. Only those are kept that differ from the span at entry; the
/// spans at entry are shared.
pub struct ChangedSpans {
    at_entry: Rc<Items<Span>>,
    kept: SparseList<Span>,
}

/// A call for whoever drops one, as of [`SparseList`].
impl Drop for ChangedSpans {
    fn drop(self) {
        let ChangedSpans {
            at_entry: _,
            kept: _,
        } = self;
    }
}

impl Model for ChangedSpans {
    ghost use Rattle.std.specs.Prelude.{List};
    ghost use Rattle.facts.specs.Overlay.{AreChanges, overlaid};
    ghost use Rattle.facts.specs.Span.{Span as Numbers};

    ghost Value = { List Numbers };

    ghost view = { λ c. overlaid c.at_entry.value c.kept };

    ghost invariant = { λ c. AreChanges c.at_entry.value c.kept };
}

ghost use Rattle.facts.specs.Fact.{any_empty, applied_span, zipped};

impl ChangedSpans {
    /// The spans at entry.
    pub fn at_entry(alloc: Global, spans: Items<Span>) -> Result<ChangedSpans, AllocError>
        ensures { IfOk result (λ entry. entry ≡ spans) }
    {
        let kept = SparseList::empty(alloc, spans.len());
        match Rc::new(alloc, spans) {
            Ok(at_entry) => Ok(ChangedSpans { at_entry, kept }),
            Err(_) => Err(AllocError),
        }
    }

    /// The same once more.
    pub fn copied(&self, alloc: Global) -> Result<ChangedSpans, AllocError>
        ensures { IfOk result (λ copy. copy ≡ self.now) }
    {
        Ok(ChangedSpans {
            at_entry: self.at_entry.clone()?,
            kept: self.kept.copied(alloc)?,
        })
    }

    /// No span yet, over the same spans at entry.
    fn begun(&self, alloc: Global) -> Result<ChangedSpans, AllocError>
        ensures { IfOk result (λ begun. begun ≡ []) }
    {
        Ok(ChangedSpans {
            at_entry: self.at_entry.clone()?,
            kept: SparseList::empty(alloc, 0),
        })
    }

    /// One more span, which is kept where it differs from the one at entry.
    fn push(&mut self, span: Span) -> Result<(), AllocError>
        ensures { OnOk result (self.new ≡ self.old ++ span ∷ []) }
    {
        let entry = span_at_entry(self.at_entry.as_ref().as_slice(), self.kept.len());
        let place = change(entry, span);
        self.kept.push(place)?;
        Ok(())
    }

    /// The spans, from the first one on.
    fn spans(&self) -> SpansLeft<'_>
        ensures { result ≡ self.now }
    {
        SpansLeft {
            at_entry: self.at_entry.as_ref().as_slice(),
            kept: self.kept.rest(),
        }
    }

    /// The span of a number, if there is one.
    pub fn get(&self, number: usize) -> Option<Span>
        ensures { result ≡ slice_get self.now number }
    {
        let (mut spans, mut before) = (self.spans(), number);
        while let Some(span) = spans.next() {
            if before == 0 {
                return Some(span);
            }
            before -= 1;
        }
        None
    }

    /// With another span at a number, if there is one.
    pub fn with(&self, alloc: Global, number: usize, span: Span) -> Result<ChangedSpans, AllocError>
        ensures { IfOk result (λ changes. changes ≡ slice_set self.now number span) }
    {
        let mut changes = self.begun(alloc)?;
        let (mut spans, mut before) = (self.spans(), Some(number));
        while let Some(old) = spans.next() {
            let (next, left) = next_with(before, old, span);
            changes.push(next)?;
            before = left;
        }
        Ok(changes)
    }

    /// The least spans over both, pair by pair.
    pub fn joined(&self, alloc: Global, other: &ChangedSpans) -> Result<ChangedSpans, AllocError>
        ensures { IfOk result (λ changes. changes ≡ zipped joined self.now other.now) }
    {
        let mut changes = self.begun(alloc)?;
        let (mut ones, mut others) = (self.spans(), other.spans());
        while let Some(one) = ones.next() {
            let Some(other) = others.next() else {
                break;
            };
            changes.push(one.joined(other))?;
        }
        Ok(changes)
    }

    /// What is left of the spans where those that follow, if any, hold too.
    pub(crate) fn narrowed(
        &self,
        alloc: Global,
        follows: &SparseList<Span>,
    ) -> Result<ChangedSpans, AllocError>
        ensures { IfOk result (λ changes. changes ≡ zipped applied_span self.now follows.now) }
    {
        let mut changes = self.begun(alloc)?;
        let (mut spans, mut known) = (self.spans(), follows.rest());
        while let Some(span) = spans.next() {
            let Some(other) = known.next() else {
                break;
            };
            changes.push(narrowed_span(span, other))?;
        }
        Ok(changes)
    }

    /// Whether one of the spans is empty.
    pub(crate) fn any_empty(&self) -> bool
        ensures { result ≡ any_empty self.now }
    {
        let mut spans = self.spans();
        while let Some(span) = spans.next() {
            if span.is_empty() {
                return true;
            }
        }
        false
    }
}

/// What is left of a span where one that follows, if any, holds too.
fn narrowed_span(span: Span, follows: Option<Span>) -> Span
    ensures { result ≡ applied_span span follows }
{
    match follows {
        Some(other) => span.intersected(other),
        None => span,
    }
}

/// The span at entry; past their end no number is left.
fn span_at_entry(spans: &[Span], number: usize) -> Span
    ensures { result ≡ at_entry spans.now number }
{
    match spans.get(number) {
        Some(span) => *span,
        None => Span::empty(),
    }
}

/// What is kept of a span.
fn change(entry: Span, span: Span) -> Option<Span>
    ensures { result ≡ change entry span }
{
    if entry.same(span) { None } else { Some(span) }
}

/// A span that is kept, else the one at entry.
fn shown(entry: Span, kept: Option<Span>) -> Span
    ensures { result ≡ shown entry kept }
{
    match kept {
        Some(span) => span,
        None => entry,
    }
}

/// What is left of spans that are gone over.
#[derive(Drop)]
struct SpansLeft<'a> {
    at_entry: &'a [Span],
    kept: Rest<'a, Span>,
}

impl<'a> Model for SpansLeft<'a> {
    ghost use Rattle.std.specs.Prelude.{List};
    ghost use Rattle.facts.specs.Overlay.{overlaid};
    ghost use Rattle.facts.specs.Span.{Span as Numbers};

    ghost Value = { List Numbers };

    ghost view = { λ s. overlaid s.at_entry.now s.kept };
}

impl<'a> SpansLeft<'a> {
    /// The next span, if one is left.
    fn next(&mut self) -> Option<Span>
        ensures { IsNext self.old self.new result }
    {
        let kept = match self.kept.next() {
            Some(kept) => kept,
            None => return None,
        };
        match self.at_entry {
            [entry, after @ ..] => {
                self.at_entry = after;
                Some(shown(*entry, kept))
            }
            [] => Some(shown(Span::empty(), kept)),
        }
    }
}

ghost use Rattle.facts.specs.Numbered.{differing};

impl ChangedSpans {
    /// Those of the spans that differ from others, with their numbers.
    pub fn differing(
        &self,
        alloc: Global,
        other: &ChangedSpans,
    ) -> Result<Items<(usize, Span)>, AllocError>
        ensures { IfOk result (λ spans. spans ≡ differing 0 self.now other.now) }
    {
        let mut found = Items::new(alloc);
        let mut number: usize = 0;
        let (mut ones, mut others) = (self.spans(), other.spans());
        while let Some(one) = ones.next() {
            let Some(other) = others.next() else {
                break;
            };
            if !one.same(other) {
                found.push((number, one))?;
            }
            number = number_behind(number)?;
        }
        Ok(found)
    }
}
