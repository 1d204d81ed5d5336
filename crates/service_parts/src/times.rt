//! Times and back-offs.
ghost use Rattle.std.specs.Prelude.{◌≡◌};
ghost use Rattle.service_parts.specs.Backing.{longer};
ghost use Rattle.service_parts.specs.Clients.{heard_at};

/// The wait after one of this length: it doubles, from the least on.
pub fn longer(wait: u64, least: u64, most: u64) -> u64
    ensures { result ≡ longer wait least most }
{
    wait.saturating_mul(2).max(least).min(most.max(least))
}

/// The earlier of two times, where the second one is yet to come.
pub fn sooner(best: u64, at: u64, now: u64) -> u64 {
    if at > now { best.min(at) } else { best }
}

/// When a client was heard of last, where so many whole frames of it came now.
pub fn heard_at(frames: usize, now: u64, last: u64) -> u64
    ensures { result ≡ heard_at now frames last }
{
    match frames {
        0 => last,
        _ => now,
    }
}
