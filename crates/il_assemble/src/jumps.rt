//! The lines of labels, and which jumps go back.
ghost use Rattle.std.specs.Prelude.{◌≡◌};
ghost use Rattle.il_assemble.specs.Elaboration.{target};
ghost use Rattle.il_assemble.specs.Kept.{seen};
ghost use Rattle.il_assemble.specs.StaticFault.{is_count, jump_fault, label_place};

use crate::check::{lowest, unless};
use crate::fault::AsmFaultKind;
use crate::scope::Scope;
use name_places::place_of;
use point_types::Name;

/// How often a counted jump may be taken in a scan: 1 to 255 times.
fn is_count(turns: u8) -> bool
    ensures { result ≡ is_count turns }
{
    turns >= 1
}

/// The place of a label's line among the lines of the body.
fn label_place(scope: Scope<'_, '_, '_>, label: &Name) -> Option<usize>
    ensures { result ≡ label_place (seen scope.entry) label.now }
{
    place_of(&scope.tables.labels, label.as_str())
}

/// The fault of a jump on a line of the body, where so many lines stand before it. A jump goes forward, a
/// counted one to its own line or an earlier one.
pub(crate) fn jump_fault(
    scope: Scope<'_, '_, '_>,
    place: usize,
    turns: Option<u8>,
    label: &Name,
) -> Option<AsmFaultKind>
    ensures { result ≡ jump_fault place turns (label_place (seen scope.entry) label.now) }
{
    let Some(target) = label_place(scope, label) else {
        return Some(AsmFaultKind::UnknownLabel);
    };
    match turns {
        None => unless(place < target, AsmFaultKind::BackwardJump),
        Some(turns) => lowest(
            unless(is_count(turns), AsmFaultKind::LiteralType),
            unless(target <= place, AsmFaultKind::ForwardLoop),
        ),
    }
}

/// The place of the line that a jump goes to.
pub(crate) fn target(scope: Scope<'_, '_, '_>, label: &Name) -> usize
    ensures { result ≡ target (seen scope.entry) label.now }
{
    label_place(scope, label).unwrap_or(0)
}
