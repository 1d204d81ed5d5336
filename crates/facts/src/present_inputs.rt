//! Which inputs are known to be present.
ghost use Rattle.std.specs.Prelude.{◌≡◌, ◌&&◌, ◌||◌, IfOk, false, true, map, replicate, slice_get, slice_set};
ghost use Rattle.facts.specs.Places.{both_places, either_place, is_filled};

use crate::sparse_list::{SparseList, number_behind};
use point_types::Items;
use std::alloc::{AllocError, Global};
use std::marker::Model;

/// Of each tag, whether its input is known to be present; only those are kept that are.
pub struct PresentInputs {
    kept: SparseList<()>,
}

/// A call for whoever drops one, as of [`SparseList`].
impl Drop for PresentInputs {
    fn drop(self) {
        let PresentInputs { kept: _ } = self;
    }
}

impl Model for PresentInputs {
    ghost use Rattle.std.specs.Prelude.{List, Bool, map};
    ghost use Rattle.facts.specs.Places.{is_filled};

    ghost Value = { List Bool };

    ghost view = { λ p. map is_filled p.kept };
}

ghost use Rattle.facts.specs.Fact.{same_bool, same_list, zipped};

impl PresentInputs {
    /// That none of so many is present; takes no memory.
    pub fn none(alloc: Global, count: usize) -> PresentInputs
        ensures { result ≡ replicate count false }
    {
        let kept = SparseList::empty(alloc, count);
        PresentInputs { kept }
    }

    /// The same once more.
    pub fn copied(&self, alloc: Global) -> Result<PresentInputs, AllocError>
        ensures { IfOk result (λ copy. copy ≡ self.now) }
    {
        Ok(PresentInputs {
            kept: self.kept.copied(alloc)?,
        })
    }

    /// Whether an input is present, if there is one of this number.
    pub fn get(&self, number: usize) -> Option<bool>
        ensures { result ≡ slice_get self.now number }
    {
        match self.kept.get(number) {
            Some(Some(_)) => Some(true),
            Some(None) => Some(false),
            None => None,
        }
    }

    /// And the input of this number, if there is one.
    pub fn with(&self, alloc: Global, number: usize) -> Result<PresentInputs, AllocError>
        ensures { IfOk result (λ present. present ≡ slice_set self.now number true) }
    {
        let kept = self.kept.with(alloc, number, Some(()))?;
        Ok(PresentInputs { kept })
    }

    /// That none of as many is present.
    pub(crate) fn emptied(&self, alloc: Global) -> PresentInputs
        ensures { result ≡ map (λ b. false) self.now }
    {
        PresentInputs::none(alloc, self.kept.len())
    }

    /// Which are present by one or the other.
    pub fn either(&self, alloc: Global, other: &PresentInputs) -> Result<PresentInputs, AllocError>
        ensures { IfOk result (λ present. present ≡ zipped (λ x y. x || y) self.now other.now) }
    {
        let kept = either_of(alloc, &self.kept, &other.kept)?;
        Ok(PresentInputs { kept })
    }

    /// Which are present by both.
    pub fn both(&self, alloc: Global, other: &PresentInputs) -> Result<PresentInputs, AllocError>
        ensures { IfOk result (λ present. present ≡ zipped (λ x y. x && y) self.now other.now) }
    {
        let kept = both_of(alloc, &self.kept, &other.kept)?;
        Ok(PresentInputs { kept })
    }

    /// Whether the same are present by both.
    pub(crate) fn same(&self, other: &PresentInputs) -> bool
        ensures { result ≡ same_list same_bool self.now other.now }
    {
        same_marks(&self.kept, &other.kept)
    }
}

fn either_of(
    alloc: Global,
    ones: &SparseList<()>,
    others: &SparseList<()>,
) -> Result<SparseList<()>, AllocError>
    ensures { IfOk result (λ marks. marks ≡ zipped either_place ones.now others.now) }
{
    let mut marks = SparseList::empty(alloc, 0);
    let (mut ones, mut others) = (ones.rest(), others.rest());
    while let Some(one) = ones.next() {
        let Some(other) = others.next() else {
            break;
        };
        marks.push(either_mark(one, other))?;
    }
    Ok(marks)
}

fn either_mark(one: Option<()>, other: Option<()>) -> Option<()>
    ensures { result ≡ either_place one other }
{
    match one {
        Some(()) => one,
        None => other,
    }
}

fn both_of(
    alloc: Global,
    ones: &SparseList<()>,
    others: &SparseList<()>,
) -> Result<SparseList<()>, AllocError>
    ensures { IfOk result (λ marks. marks ≡ zipped both_places ones.now others.now) }
{
    let mut marks = SparseList::empty(alloc, 0);
    let (mut ones, mut others) = (ones.rest(), others.rest());
    while let Some(one) = ones.next() {
        let Some(other) = others.next() else {
            break;
        };
        marks.push(both_marks(one, other))?;
    }
    Ok(marks)
}

fn both_marks(one: Option<()>, other: Option<()>) -> Option<()>
    ensures { result ≡ both_places one other }
{
    match one {
        Some(()) => other,
        None => None,
    }
}

/// Whether the same places of both are filled, of as many.
fn same_marks(ones: &SparseList<()>, others: &SparseList<()>) -> bool
    ensures { result ≡ same_list same_bool (map is_filled ones.now) (map is_filled others.now) }
{
    let (mut ones, mut others) = (ones.rest(), others.rest());
    while let Some(one) = ones.next() {
        let Some(other) = others.next() else {
            return false;
        };
        if !same_mark(one, other) {
            return false;
        }
    }
    match others.next() {
        Some(_) => false,
        None => true,
    }
}

fn same_mark(one: Option<()>, other: Option<()>) -> bool
    ensures { result ≡ same_bool (is_filled one) (is_filled other) }
{
    match (one, other) {
        (Some(()), Some(())) => true,
        (None, None) => true,
        _ => false,
    }
}

ghost use Rattle.facts.specs.Numbered.{numbers_of};

impl PresentInputs {
    /// The numbers of the inputs that are known to be present.
    pub fn numbers(&self, alloc: Global) -> Result<Items<usize>, AllocError>
        ensures { IfOk result (λ numbers. numbers ≡ numbers_of 0 self.now) }
    {
        filled_numbers(alloc, &self.kept)
    }
}

/// The numbers of the places that are filled.
fn filled_numbers(alloc: Global, marks: &SparseList<()>) -> Result<Items<usize>, AllocError>
    ensures { IfOk result (λ numbers. numbers ≡ numbers_of 0 (map is_filled marks.now)) }
{
    let mut numbers = Items::new(alloc);
    let mut number: usize = 0;
    let mut marks = marks.rest();
    while let Some(mark) = marks.next() {
        if let Some(()) = mark {
            numbers.push(number)?;
        }
        number = number_behind(number)?;
    }
    Ok(numbers)
}
