//! The least and the greatest of some numbers.
ghost use Rattle.std.specs.Prelude.{◌≡◌, ℤ, List, [], ◌∷◌, Some};
ghost use Rattle.history.specs.Bounds.{AreBounds, IsGreatest, IsLeast};

/// The least and the greatest of some numbers.
#[derive(Clone, Copy, PartialEq, Eq, Debug)]
pub struct Bounds {
    pub least: i64,
    pub greatest: i64,
}

impl Bounds {
    /// Those of one number.
    pub fn of(number: i64) -> Bounds
        ensures { AreBounds (number ∷ []) (Some result) }
    {
        Bounds {
            least: number,
            greatest: number,
        }
    }

    /// Those of one number more.
    pub fn with(self, number: i64) -> Bounds
        ensures { (numbers : List ℤ) → AreBounds numbers (Some self) → AreBounds (number ∷ numbers) (Some result) }
    {
        Bounds {
            least: lesser(self.least, number),
            greatest: greater(self.greatest, number),
        }
    }
}

/// The least, with one number more.
#[tactic(auto, using(crate::proofs::MoreNumbers::least_stays))]
fn lesser(least: i64, number: i64) -> i64
    ensures { (numbers : List ℤ) → IsLeast least numbers → IsLeast result (number ∷ numbers) }
{
    if number < least { number } else { least }
}

/// The greatest, with one number more.
#[tactic(auto, using(crate::proofs::MoreNumbers::greatest_stays))]
fn greater(greatest: i64, number: i64) -> i64
    ensures { (numbers : List ℤ) → IsGreatest greatest numbers → IsGreatest result (number ∷ numbers) }
{
    if number > greatest { number } else { greatest }
}
