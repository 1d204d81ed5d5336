//! A list of which few places hold something.
ghost use Rattle.std.specs.Prelude.{◌≡◌, ◌+◌, ◌∷◌, [], ◌++◌, List, length, None, OnErr, OnOk, IfOk, replicate, slice_get, slice_set};
ghost use Rattle.facts.specs.Places.{IsNext, empty_before, filled, written};

use std::alloc::{AllocError, Global};
use std::marker::Model;

/// A list of so many places, of which only those that aren't empty are kept: each with the number of
/// empty places before it, and then how many are empty at the end.
pub struct SparseList<T> {
    kept: Vec<(usize, T)>,
    empty_at_end: usize,
    count: usize,
}

/// Written out, so that whoever drops one makes a call: many functions own some, and their proofs then
/// needn't take each of them apart.
impl<T: Drop> Drop for SparseList<T> {
    fn drop(self) {
        let SparseList {
            kept: _,
            empty_at_end: _,
            count: _,
        } = self;
    }
}

impl<T> Model for SparseList<T> {
    ghost use Rattle.std.specs.Prelude.{◌≡◌, length, List, Option};
    ghost use Rattle.std.specs.Coded.{coded_list, coded_option};
    ghost use Rattle.facts.specs.Places.{places};

    ghost Value = { List (Option T) };

    ghost coded = { coded_list (coded_option T.code) };

    ghost view = { λ s. places s.kept.items s.empty_at_end };

    ghost invariant = { λ s. s.count ≡ length (places s.kept.items s.empty_at_end) };
}

impl<T: Copy> SparseList<T> {
    /// So many empty places; takes no memory.
    pub fn empty(alloc: Global, count: usize) -> SparseList<T>
        ensures { result ≡ replicate count None }
    {
        SparseList {
            kept: Vec::new(alloc),
            empty_at_end: count,
            count,
        }
    }

    /// How many places there are.
    pub fn len(&self) -> usize
        ensures { result ≡ length self.now }
    {
        self.count
    }

    /// How many places aren't empty.
    pub fn filled(&self) -> usize
        ensures { result ≡ filled self.now }
    {
        self.kept.len()
    }

    /// The same once more.
    pub fn copied(&self, alloc: Global) -> Result<SparseList<T>, AllocError>
        ensures { IfOk result (λ copy. copy ≡ self.now) }
    {
        Ok(SparseList {
            kept: Vec::from_slice(alloc, self.kept.as_slice())?,
            empty_at_end: self.empty_at_end,
            count: self.count,
        })
    }

    /// One more place at the end; where memory is refused the list stays as it was.
    pub fn push(&mut self, place: Option<T>) -> Result<(), AllocError>
        ensures ok { OnOk result (self.new ≡ self.old ++ place ∷ []) }
        ensures err { OnErr result (self.new ≡ self.old) }
    {
        let Some(count) = self.count.checked_add(1) else {
            return Err(AllocError);
        };
        match place {
            None => {
                self.empty_at_end += 1;
                self.count = count;
                Ok(())
            }
            Some(item) => {
                self.kept.push((self.empty_at_end, item))?;
                self.empty_at_end = 0;
                self.count = count;
                Ok(())
            }
        }
    }

    /// The place of a number, if there is one.
    pub fn get(&self, number: usize) -> Option<Option<T>>
        ensures { result ≡ slice_get self.now number }
    {
        let (mut places, mut before) = (self.rest(), number);
        while let Some(place) = places.next() {
            if before == 0 {
                return Some(place);
            }
            before -= 1;
        }
        None
    }

    /// With another place at a number, if there is one.
    pub fn with(
        &self,
        alloc: Global,
        number: usize,
        place: Option<T>,
    ) -> Result<SparseList<T>, AllocError>
        ensures { IfOk result (λ changed. changed ≡ slice_set self.now number place) }
    {
        let mut changed = SparseList::empty(alloc, 0);
        let (mut places, mut before) = (self.rest(), Some(number));
        while let Some(old) = places.next() {
            let (next, left) = next_with(before, old, place);
            changed.push(next)?;
            before = left;
        }
        Ok(changed)
    }

    /// The places, from the first one on.
    pub fn rest(&self) -> Rest<'_, T>
        ensures { result ≡ self.now }
    {
        let kept = self.kept.as_slice();
        Rest {
            kept,
            empty: empty_before(kept, self.empty_at_end),
            empty_at_end: self.empty_at_end,
        }
    }
}

/// What stands at the next place of a list in which the place after `before` others gets a new value, or none does; and the
/// `before` of the place after it.
pub(crate) fn next_with<P: Copy>(before: Option<usize>, old: P, new: P) -> (P, Option<usize>)
    ensures { (rest : List P) → written before (old ∷ rest) new ≡ result.0 ∷ written result.1 rest new }
{
    match before {
        Some(0) => (new, None),
        Some(more) => (old, Some(more - 1)),
        None => (old, None),
    }
}

/// How many places are empty before the first one that is kept, or the end.
fn empty_before<T: Copy>(kept: &[(usize, T)], empty_at_end: usize) -> usize
    ensures { result ≡ empty_before kept.now empty_at_end }
{
    match kept {
        [(empty, _), ..] => *empty,
        [] => empty_at_end,
    }
}

/// What is left of such a list that is gone over.
#[derive(Drop)]
pub struct Rest<'a, T> {
    kept: &'a [(usize, T)],
    empty: usize,
    empty_at_end: usize,
}

impl<'a, T> Model for Rest<'a, T> {
    ghost use Rattle.std.specs.Prelude.{List, Option};
    ghost use Rattle.std.specs.Coded.{coded_list, coded_option};
    ghost use Rattle.facts.specs.Places.{places_left};

    ghost Value = { List (Option T) };

    ghost coded = { coded_list (coded_option T.code) };

    ghost view = { λ r. places_left r.empty r.kept.now r.empty_at_end };
}

impl<'a, T: Copy> Rest<'a, T> {
    /// The next place, if one is left.
    pub fn next(&mut self) -> Option<Option<T>>
        ensures { IsNext self.old self.new result }
    {
        if self.empty > 0 {
            self.empty -= 1;
            return Some(None);
        }
        let [(_, item), kept @ ..] = self.kept else {
            return None;
        };
        self.kept = kept;
        self.empty = empty_before(kept, self.empty_at_end);
        Some(Some(*item))
    }
}

/// The number of the next place.
pub(crate) fn number_behind(number: usize) -> Result<usize, AllocError>
    ensures { IfOk result (λ next. next ≡ number + 1) }
{
    match number.checked_add(1) {
        Some(next) => Ok(next),
        None => Err(AllocError),
    }
}
