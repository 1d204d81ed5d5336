//! What is noted of a program that is refused: its text, its code, or its trial.
use crate::input_cause::cause_of_input;
use crate::refusal_note::RefusalNote;
use crate::trap_cause::cause_of_trap;
use crate::verdict_cause::cause_of_refusal;
use commands::CommandRefusal;
use site_model::Site;
use std::alloc::Global;

/// The cause of the refusal of a program with this text, or of one for a site that the caller handed in; none of other
/// refusals.
pub(crate) fn cause_of_program(
    alloc: Global,
    text: &str,
    site: Option<&Site>,
    refusal: &CommandRefusal,
) -> Option<RefusalNote> {
    match refusal {
        CommandRefusal::Unread(length, fault) => {
            let (text, _) = text.split_at_checked(*length)?;
            Some(RefusalNote::unread(alloc, text, *fault))
        }
        CommandRefusal::Unassembled(program, fault) => {
            Some(RefusalNote::unassembled(alloc, program, *fault))
        }
        CommandRefusal::Unverified(program, refused, Some(site)) => {
            Some(cause_of_refusal(alloc, program, site, refused))
        }
        CommandRefusal::Unverified(program, refused, None) => {
            Some(cause_of_refusal(alloc, program, site?, refused))
        }
        CommandRefusal::Input(refused) => Some(cause_of_input(alloc, refused)),
        CommandRefusal::Trapped(program, trial, trap) => {
            Some(cause_of_trap(alloc, program, trial, *trap))
        }
        CommandRefusal::Definition(_) | CommandRefusal::Site(_, _) | CommandRefusal::Plant(_, _) =>
            None,
    }
}
