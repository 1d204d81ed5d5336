//! The line that tells of a scan.
ghost use Rattle.std.specs.Prelude.{◌≡◌, ◌++◌, IfOk, codes, string_bytes};
ghost use Rattle.std.specs.Fmt.{decimal};
ghost use Rattle.gateway.specs.poller.Telling.{scan_line};

use crate::poller::cycle::Report;
use std::alloc::{AllocError, Global};

impl Report {
    /// The line `scan K steps S writes W refused R lost T` of the K-th scan, with its end.
    pub fn told(&self, alloc: Global, k: u64) -> Result<String, AllocError>
        ensures ok { IfOk result (λ text. string_bytes text ≡ scan_line k self.now) }
    {
        let mut line = steps_of_scan(alloc, k, self.steps)?;
        let writes = writes_of_scan(alloc, self.writes, self.refused)?;
        let lost = lost_in_scan(alloc, self.lost)?;
        line.push_str(writes.as_str())?;
        line.push_str(lost.as_str())?;
        Ok(line)
    }
}

fn steps_of_scan(alloc: Global, k: u64, steps: u32) -> Result<String, AllocError>
    ensures ok { IfOk result (λ text. string_bytes text ≡ codes "scan " ++ decimal k ++ codes " steps " ++ decimal steps) }
{
    let text = format!(in alloc; "scan {k} steps {steps}")?;
    Ok(text)
}

fn writes_of_scan(alloc: Global, writes: usize, refused: usize) -> Result<String, AllocError>
    ensures ok { IfOk result (λ text. string_bytes text ≡ codes " writes " ++ decimal writes ++ codes " refused " ++ decimal refused) }
{
    let text = format!(in alloc; " writes {writes} refused {refused}")?;
    Ok(text)
}

fn lost_in_scan(alloc: Global, lost: usize) -> Result<String, AllocError>
    ensures ok { IfOk result (λ text. string_bytes text ≡ codes " lost " ++ decimal lost ++ codes "\n") }
{
    let text = format!(in alloc; " lost {lost}\n")?;
    Ok(text)
}
