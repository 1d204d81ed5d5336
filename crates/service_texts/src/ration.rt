//! So many lines in a span of time.
ghost use Rattle.std.specs.Prelude.{◌≡◌, [], None, Some, nat_lt, position};
ghost use Rattle.service_texts.specs.Rationing.{Asks, AsksAt, Forgets, ForgetsOthers, is_of, is_over, others_from, served};

use crate::share::Share;
use arrayvec::ArrayVec;

/// How many addresses have shares of their own.
const PLACES: usize = 64;

/// What came of a span that is over.
#[derive(Clone, Copy)]
pub struct Over {
    /// The address, as a number; none where it is those that had no share of their own.
    pub key: Option<u128>,
    /// How many lines weren't told.
    pub more: u64,
}

/// At most so many lines of each address in a span of time, which begins with the first of them. Where 64 addresses have
/// shares, all further ones have one together.
#[derive(Drop)]
pub struct Ration {
    most: u64,
    span: u64,
    shares: ArrayVec<Share, 64>,
    others: Option<Share>,
}

impl Ration {
    /// At most so many lines in so many milliseconds; nothing was told yet.
    pub fn new(most: u64, span: u64) -> Ration
        ensures most { result.most ≡ most }
        ensures span { result.span ≡ span }
        ensures none { result.shares.items ≡ [] }
        ensures others { result.others ≡ None }
    {
        Ration {
            most,
            span,
            shares: ArrayVec::new(),
            others: None,
        }
    }

    /// Whether one more line is told of an address; one that isn't is counted.
    pub fn ask(&mut self, key: u128, now: u64) -> bool
        ensures { Asks key now self.old result self.new }
    {
        match self.place_of(key) {
            Some(place) => self.shares[place].serve(self.most),
            None => self.ask_anew(key, now),
        }
    }

    fn place_of(&self, key: u128) -> Option<usize>
        ensures { result ≡ position (is_of key) self.now.shares.items }
    {
        self.shares.iter().position(|share| share.key == key)
    }

    fn ask_anew(&mut self, key: u128, now: u64) -> bool
        ensures { AsksAt None key now self.old result self.new }
    {
        if self.shares.is_full() {
            return self.ask_of_others(now);
        }
        let mut share = Share::fresh(key, now);
        let is_told = share.serve(self.most);
        self.shares.push(share);
        is_told
    }

    fn ask_of_others(&mut self, now: u64) -> bool
        ensures told { result ≡ nat_lt (others_from now self.old.others).told self.old.most }
        ensures after { self.new ≡ record self.old { others = Some (served self.old.most (others_from now self.old.others)) } }
    {
        let mut share = match self.others {
            Some(share) => share,
            None => Share::fresh(0, now),
        };
        let is_told = share.serve(self.most);
        self.others = Some(share);
        is_told
    }

    /// What came of a span that is over, where there is one: its share is forgotten, and the next line of that address
    /// begins a new one.
    pub fn over(&mut self, now: u64) -> Option<Over>
        ensures { Forgets now self.old result self.new }
    {
        match self.place_over(now) {
            Some(place) => {
                let share = self.shares.remove(place);
                Some(Over {
                    key: Some(share.key),
                    more: share.more,
                })
            }
            None => self.others_over(now),
        }
    }

    fn place_over(&self, now: u64) -> Option<usize>
        ensures { result ≡ position (is_over self.now.span now) self.now.shares.items }
    {
        let span = self.span;
        self.shares
            .iter()
            .position(|share| share.is_over(span, now))
    }

    fn others_over(&mut self, now: u64) -> Option<Over>
        ensures { ForgetsOthers self.old.others now self.old result self.new }
    {
        let share = self.others?;
        if !share.is_over(self.span, now) {
            return None;
        }
        self.others = None;
        Some(Over {
            key: None,
            more: share.more,
        })
    }
}
