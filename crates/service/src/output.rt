//! What was told of an output.
ghost use Rattle.std.specs.Prelude.{◌≡◌, ◌||◌, ◌&&◌, None, Some, false, is_some, if◌then◌else◌};
ghost use Rattle.service.specs.Turning.{difference_in, showing, turns};

use crate::notice::Unwritten;
use crate::read_back::{Difference, Shown};

/// What became of an output.
#[derive(Clone, Copy, Debug, PartialEq, Eq)]
pub enum OutputState {
    /// Its device took it.
    Written,
    /// It isn't written.
    Unwritten(Unwritten),
}

/// What was told of an output last, and whether its write is waited for.
#[derive(Clone, Copy)]
pub struct Output {
    told: Option<OutputState>,
    pub is_awaited: bool,
    /// Whether what its device shows is compared with what it took.
    is_read_back: bool,
    /// What its device shows otherwise than it took it, where that was told.
    differs: Option<Difference>,
}

impl Output {
    /// Nothing was told of it. Whether what its device shows is to be compared with what it took.
    pub fn new(is_read_back: bool) -> Output
        ensures { result ≡ record { told = None; is_awaited = false; is_read_back = is_read_back; differs = None } }
    {
        Output {
            told: None,
            is_awaited: false,
            is_read_back,
            differs: None,
        }
    }

    /// What became of it last.
    pub fn told(&self) -> Option<OutputState>
        ensures { result ≡ self.now.told }
    {
        self.told
    }

    /// Whether what its device shows is compared with what it took.
    pub fn is_read_back(&self) -> bool
        ensures { result ≡ self.now.is_read_back }
    {
        self.is_read_back
    }

    /// What its device showed last otherwise than it took it.
    pub fn differs(&self) -> Option<Difference>
        ensures { result ≡ self.now.differs }
    {
        self.differs
    }

    /// Its write is waited for, where it is still to be made.
    pub fn wait(&mut self, is_open: bool)
        ensures { self.new ≡ record self.old { is_awaited = self.old.is_awaited || is_open } }
    {
        self.is_awaited = self.is_awaited || is_open;
    }

    /// This became of it; whether that is to be told. What is new ends what was told of how its device shows it.
    pub fn settle(&mut self, state: OutputState) -> bool
        ensures state { self.new ≡ record self.old { told = Some state; is_awaited = false; differs = if result then None else self.old.differs } }
        ensures differs { result ≡ false → self.old.told ≡ Some state }
    {
        self.is_awaited = false;
        let is_new = self.told != Some(state);
        self.told = Some(state);
        self.differs = unless(is_new, self.differs);
        is_new
    }

    /// Its device shows this; whether that is to be told.
    pub(crate) fn show(&mut self, shown: Shown) -> bool
        ensures shows { self.new ≡ showing shown self.old }
        ensures told { result ≡ (self.old.is_read_back && turns shown (is_some self.old.differs)) }
    {
        if !self.is_read_back {
            return false;
        }
        let is_told = turns(shown, self.differs.is_some());
        self.differs = difference_in(shown);
        is_told
    }
}

fn unless(is_over: bool, differs: Option<Difference>) -> Option<Difference>
    ensures { result ≡ (if is_over then None else differs) }
{
    if is_over { None } else { differs }
}

/// Whether what a device shows is to be told, where it differed before or not.
fn turns(shown: Shown, differed: bool) -> bool
    ensures { result ≡ turns shown differed }
{
    match shown {
        Shown::Same => differed,
        Shown::Other(_) => !differed,
    }
}

fn difference_in(shown: Shown) -> Option<Difference>
    ensures { result ≡ difference_in shown }
{
    match shown {
        Shown::Same => None,
        Shown::Other(difference) => Some(difference),
    }
}
