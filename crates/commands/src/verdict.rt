//! The command `check`: the verdict on a program for a site.
ghost use Rattle.std.specs.Prelude.{◌≡◌, map, string_bytes, IfOk, IfSome, Ok};
ghost use Rattle.il_assemble.specs.Correct.{DoesWhatItMeans};
ghost use Rattle.verifier.specs.Safe.{NeverGoesWrong};
ghost use Rattle.verifier.specs.Verdict.{judged};
ghost use Rattle.commands.specs.Accepted.{Gives, most_deferred};
ghost use Rattle.commands.specs.Check.{IsCheck, PrintsAccepted, TellsInputs};
ghost use Rattle.commands.specs.Obeyed.{Checks};

use crate::accepted::{Accepted, accept};
use crate::outcome::{CommandOutcome, tell_no_memory};
use crate::refusal::CommandRefusal;
use file_keys::TomlFile;
use std::alloc::{AllocError, Global};
use std::io::Write;

/// Judges a program for a site, by the shipped model definitions and those of the texts `defs`, of which the last one of
/// an ID counts: prints `accepted` and `budget N`, the most instructions that a scan takes, where no scan can ever go
/// wrong, or the first refusal, of the definitions, the site and the program in this order. Gives the status: 0, or 1
/// for a refusal or a failed write.
pub fn check<W: Write>(
    alloc: Global,
    site: &TomlFile<'_>,
    program: &str,
    defs: &[String],
    out: &mut W,
) -> u8
    ensures told { IsCheck site.now program.now (map string_bytes defs.now) (W.contents out.old) (W.contents out.new) result }
    ensures accepted { result ≡ 0 → PrintsAccepted site.now program.now (map string_bytes defs.now) (W.contents out.old) (W.contents out.new)
        (λ s p a. judged a.image s.tags most_deferred ≡ Ok a.budget) }
    ensures safe { result ≡ 0 → PrintsAccepted site.now program.now (map string_bytes defs.now) (W.contents out.old) (W.contents out.new)
        (λ s p a. NeverGoesWrong a) }
    ensures means { result ≡ 0 → PrintsAccepted site.now program.now (map string_bytes defs.now) (W.contents out.old) (W.contents out.new)
        (λ s p a. DoesWhatItMeans p a.image) }
{
    judge(alloc, site, program, defs, out).status
}

/// What came of a judgement.
#[derive(Drop)]
pub struct Judged {
    pub status: u8,
    /// Why the definitions, the site or the program are refused.
    pub cause: Option<CommandRefusal>,
    /// The site and the program, where it is accepted.
    pub accepted: Option<Accepted>,
}

/// The same, with the cause of a refusal, and what is accepted.
pub fn judge<W: Write>(
    alloc: Global,
    site: &TomlFile<'_>,
    program: &str,
    defs: &[String],
    out: &mut W,
) -> Judged
    ensures checks { Checks site.now program.now (map string_bytes defs.now) (W.contents out.old) (W.contents out.new) result.status }
    ensures given { IfSome result.accepted (λ given. Gives site.now program.now (map string_bytes defs.now) (Ok given)) }
{
    match outcome_of(alloc, site, program, defs) {
        Ok((outcome, accepted)) => {
            let status = outcome.tell(out);
            Judged {
                status,
                cause: outcome.cause,
                accepted,
            }
        }
        Err(AllocError) => Judged {
            status: tell_no_memory(out),
            cause: None,
            accepted: None,
        },
    }
}

/// What is told of a program, a site and definitions, and what is accepted of them.
fn outcome_of(
    alloc: Global,
    site: &TomlFile<'_>,
    program: &str,
    defs: &[String],
) -> Result<(CommandOutcome, Option<Accepted>), AllocError>
    ensures told { IfOk result (λ o. TellsInputs site.now program.now (map string_bytes defs.now) o.0) }
    ensures given { IfOk result (λ o. IfSome o.1 (λ given. Gives site.now program.now (map string_bytes defs.now) (Ok given))) }
{
    match accept(alloc, site, program, defs) {
        Ok(Ok(given)) => match CommandOutcome::accepted(alloc, given.verified.budget()) {
            Ok(outcome) => Ok((outcome, Some(given))),
            Err(AllocError) => Err(AllocError),
        },
        Ok(Err(outcome)) => Ok((outcome, None)),
        Err(AllocError) => Err(AllocError),
    }
}
