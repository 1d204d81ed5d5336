//! What is known of a program whose scan may take too long.
ghost use Rattle.std.specs.Prelude.{◌<◌, length};

use crate::detail::Detail;
use crate::longest::{longest_length, reached_flags};
use crate::refusing::MOST_DEFERRED;
use crate::rows::{Row, rows_of};
use facts::RefusalKind;
use facts::context::Context;
use il_reader::Program;
use point_types::Items;
use scan_code::{Image, Op};
use site_model::Site;
use std::alloc::{AllocError, Global};
use verifier::budget::most_steps;
use verifier::known::framed;

/// What makes a budget too great: its parts, on the line of the counted jump with the most turns. Nothing is known where
/// the program is refused for another reason.
pub(crate) fn budget_detail(
    alloc: Global,
    program: &Program,
    image: &Image,
    site: &Site,
    kind: RefusalKind,
) -> Result<Detail, AllocError> {
    if kind == RefusalKind::OverBudget {
        if let Ok(context) = framed(alloc, image, site, MOST_DEFERRED) {
            return detail_in(alloc, program, &context);
        }
    }
    Ok(Detail::none(alloc))
}

fn detail_in(alloc: Global, program: &Program, context: &Context) -> Result<Detail, AllocError>
    requires { length context.now.listing < 65536 }
{
    let rows: Items<Row> = rows_of(alloc, program, context)?;
    let reached = reached_flags(alloc, rows.as_slice())?;
    if reached.len() != context.size() {
        return Ok(Detail::none(alloc));
    }
    let steps = most_steps(alloc, context, &reached)?;
    let longest = longest_length(alloc, context, &reached)?;
    let (turns, line) = turns_in(rows.as_slice());
    let mut text = format!(in alloc; "at most {steps} instructions: ")?;
    let parts = format!(in alloc;
        "the longest way has {longest}, and {turns} times a jump goes back"
    )?;
    text.push_str(parts.as_str())?;
    Ok(Detail { line, text })
}

/// How often counted jumps are taken, all together, and the line of the one that is taken most often.
fn turns_in(rows: &[Row]) -> (usize, u32) {
    let mut total = 0usize;
    let mut most = 0;
    let mut line = 0;
    for row in rows {
        if let Op::Repeat(_, _, turns, _) = row.op {
            total = total.saturating_add(usize::from(turns));
            if turns > most {
                most = turns;
                line = row.line;
            }
        }
    }
    (total, line)
}
