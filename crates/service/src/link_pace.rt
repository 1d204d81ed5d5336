//! How the devices of a link are asked.
ghost use Rattle.std.specs.Prelude.{◌≡◌};
ghost use Rattle.service.specs.Turns.{turn_of, turned_to};

/// What devices are asked for.
#[derive(Clone, Copy)]
pub(crate) enum Purpose {
    /// An output is written.
    Write,
    /// A device that answered all requests but the last one is asked whether it does again.
    Doubt,
    /// A search goes on that keeps no device waiting for long, or begins.
    GoOn,
    /// A wanted block is read.
    Read,
    /// A map is searched.
    Search,
    /// A device that didn't answer is asked whether it does again.
    Probe,
    /// A search goes on, whatever the others wait for.
    Sign,
}

/// Whose turn it is on a link, what was asked there beside reads and writes, and whether its devices answer.
#[derive(Clone, Copy)]
pub(crate) struct LinkPace {
    /// The place of the device that was read last: it has the turn until it has nothing more to be read.
    reads: usize,
    /// That of the device that was written last.
    writes: usize,
    /// That of the device that was searched last.
    searches: usize,
    /// That of the device that was asked last whether it answers again.
    probes: usize,
    /// From when on a request may begin that doesn't fit before what the scans need.
    pub(crate) spare_from: u64,
    /// From when on one may begin that is waited for as long as a device may take.
    pub(crate) long_from: u64,
    /// The device that answered last.
    pub(crate) heard: Option<usize>,
    /// So many requests in a row had no answer.
    pub(crate) misses: u64,
    /// When the first of these began.
    pub(crate) missed_since: u64,
    /// When one had no answer last.
    pub(crate) missed_at: u64,
    /// From when on a device may be asked before others are read that wasn't asked yet.
    pub(crate) try_from: u64,
    /// How long a request without an answer keeps the link from answering others, in milliseconds.
    pub(crate) cost: u64,
    /// Whether the next search goes on before devices are read.
    pub(crate) is_owed: bool,
}

impl LinkPace {
    /// That of a link over which nothing was asked.
    pub(crate) fn new() -> LinkPace {
        LinkPace {
            reads: 0,
            writes: 0,
            // (the first connection begins with the first device)
            searches: usize::MAX,
            probes: 0,
            spare_from: 0,
            long_from: 0,
            heard: None,
            misses: 0,
            missed_since: 0,
            missed_at: 0,
            try_from: 0,
            cost: 0,
            is_owed: false,
        }
    }

    /// That of a link with a new connection. Its first search is of another device than the last one before: the other end may
    /// have ended the connection because that one is silent.
    pub(crate) fn begun(self) -> LinkPace {
        LinkPace {
            searches: self.searches.wrapping_add(1),
            misses: 0,
            ..self
        }
    }

    /// The place from which on the devices are asked.
    pub(crate) fn turn(&self, purpose: Purpose) -> usize
        ensures { result ≡ turn_of purpose self.now }
    {
        match purpose {
            Purpose::Write => self.writes,
            Purpose::Read => self.reads,
            Purpose::GoOn | Purpose::Search | Purpose::Sign => self.searches,
            Purpose::Doubt | Purpose::Probe => self.probes,
        }
    }

    /// The device at this place was asked.
    pub(crate) fn turned(self, purpose: Purpose, place: usize) -> LinkPace
        ensures { result ≡ turned_to purpose place self }
    {
        let mut turned = self;
        match purpose {
            Purpose::Write => turned.writes = place,
            Purpose::Read => turned.reads = place,
            Purpose::GoOn | Purpose::Search | Purpose::Sign => turned.searches = place,
            Purpose::Doubt | Purpose::Probe => turned.probes = place.saturating_add(1),
        }
        turned
    }

    /// A device answered at this time what it was asked at the other, in this time where nothing holds its answer up.
    pub(crate) fn heard_of(self, device: usize, since: u64, now: u64, usual: u64) -> LinkPace {
        LinkPace {
            heard: Some(device),
            misses: 0,
            cost: self.cost_by(since, now, now.saturating_sub(since) > usual),
            ..self
        }
    }

    /// How long a request without an answer keeps the link: until a device answered that was asked right after it, or less where
    /// nothing held that answer up.
    fn cost_by(&self, since: u64, now: u64, is_held_up: bool) -> u64 {
        let took = now.saturating_sub(self.missed_since);
        if self.misses != 1 || since > self.missed_at.saturating_add(10) {
            self.cost
        } else if is_held_up {
            took
        } else {
            self.cost.min(took)
        }
    }

    /// A request that began at the one time had no answer by the other; for this long none is tried that wasn't asked yet.
    pub(crate) fn missed(self, since: u64, now: u64, rest: u64) -> LinkPace {
        let missed_since = match self.misses {
            0 => since,
            _ => self.missed_since,
        };
        LinkPace {
            misses: self.misses.saturating_add(1),
            missed_since,
            missed_at: now,
            try_from: now.saturating_add(rest),
            is_owed: false,
            ..self
        }
    }
}
