//! A trial of the program on standard input.
ghost use Rattle.std.specs.Prelude.{IfSome};
ghost use Rattle.commands.specs.Outcome.{IsTrial};
ghost use Rattle.command_files.specs.Tried.{TellsHindered, Tries};

use crate::files::{STANDARD_INPUT, SourceFault, read_text};
use commands::{tell_no_memory, try_input, write_lines};
use refusal_notes::{explain_program, explain_unusable};
use std::io::{Read, Write};

/// A trial of the text that a reader gives; or it is told why that isn't had. Whether a read failed the reader tells no
/// contract.
pub fn trial_of<S: Read + Drop, W: Write>(
    rt: &(impl Eprint + AllocGlobal),
    reader: S,
    quiet: bool,
    out: &mut W,
) -> u8
    ensures { IfSome (S.remaining reader) (λ bytes. Tries bytes (W.contents out.old) (W.contents out.new) result) }
{
    match read_text(rt.alloc(), reader) {
        Ok(text) => trial_on(rt, text.as_str(), quiet, out),
        Err(fault) => tell_hindered(rt, fault, quiet, out),
    }
}

/// A trial of the text of standard input.
fn trial_on<W: Write>(rt: &(impl Eprint + AllocGlobal), input: &str, quiet: bool, out: &mut W) -> u8
    ensures { IsTrial input.now (W.contents out.old) (W.contents out.new) result }
{
    let (status, cause) = try_input(rt.alloc(), input, out);
    if !quiet {
        explain_program(rt, STANDARD_INPUT, input, &cause);
    }
    status
}

/// Tells why the text of standard input isn't had, and gives the status.
fn tell_hindered<W: Write>(
    rt: &(impl Eprint + AllocGlobal),
    fault: SourceFault,
    quiet: bool,
    out: &mut W,
) -> u8
    ensures { TellsHindered fault (W.contents out.old) (W.contents out.new) result }
{
    match fault {
        SourceFault::Unusable(fault) => {
            if !quiet {
                explain_unusable(rt, STANDARD_INPUT, fault);
            }
            write_lines(out, b"refused: file -\n", 1)
        }
        SourceFault::OutOfMemory => tell_no_memory(out),
    }
}
