//! The first pass: where each line's code begins.
ghost use Rattle.std.specs.Prelude.{◌≡◌, ◌⊎◌, None, Ok, Err, IfOk, IfErr};
ghost use Rattle.il_assemble.specs.Elaboration.{measured};
ghost use Rattle.il_assemble.specs.Kept.{addresses_of, seen};
ghost use Rattle.il_assemble.specs.Word.{out_of_memory};

use crate::emit::{count_turns, emit_line};
use crate::fault::AsmFault;
use crate::limits::{MOST_CODE, MOST_COUNTED, too_long};
use crate::passing::passing_line;
use crate::scope::Scope;
use crate::typing::type_after_line;
use il_reader::Statement;
use std::alloc::Global;

/// The first pass: where each line's code begins, by writing it with no address known; or the line whose
/// code passes the limit, or that has a counted jump more than there may be.
pub(crate) fn measure(
    alloc: Global,
    scope: Scope<'_, '_, '_>,
    statements: &[Statement],
    end_line: u32,
) -> Result<Vec<u16>, AsmFault>
    ensures short { IfOk result (λ _. measured (seen scope.entry) end_line 0 0 None statements.now ≡ Ok tt) }
    ensures addresses { IfOk result (λ addresses. addresses.items ≡ addresses_of (seen scope.entry) 0 0 None statements.now) }
    ensures refused { IfErr result (λ fault. (measured (seen scope.entry) end_line 0 0 None statements.now ≡ Err fault) ⊎ (fault ≡ out_of_memory)) }
{
    let mut addresses = Vec::new(alloc);
    let mut code = Vec::new(alloc);
    let mut counter = 0;
    let mut running = None;
    let mut rest = statements;
    while let [statement, after @ ..] = rest {
        let action = &statement.action;
        let begin = code.len();
        addresses.push(begin as u16)?;
        let counted = counter + count_turns(action);
        if counted > MOST_COUNTED {
            return Err(too_long(statement.line));
        }
        emit_line(&mut code, scope, &[], counter, running, after, action)?;
        if code.len() > MOST_CODE {
            code.truncate(begin);
            let line = passing_line(&mut code, scope, running, after, statement)?;
            return Err(too_long(line));
        }
        running = type_after_line(scope, running, after, action);
        counter = counted;
        rest = after;
    }
    if code.len() < MOST_CODE {
        Ok(addresses)
    } else {
        Err(too_long(end_line))
    }
}
