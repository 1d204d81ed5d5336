//! Which externals are loaded, and which are stored.
ghost use Rattle.std.specs.Prelude.{◌≡◌, OnOk, IfOk, ◌≤◌, ◌++◌, ◌∷◌, Bool, List, Option, length, slice_get};
ghost use Rattle.il_reader.specs.declared.tree.External.{External};
ghost use Rattle.il_assemble.specs.Kept.{seen};
ghost use Rattle.il_assemble.specs.Names.{is_loaded, is_stored, known_as, noted, noted_load, noted_store, tag_place, tags_of, uses_after, uses_of_action, uses_of_first, uses_of_inner, uses_of_operand, uses_of_simple};
ghost use Rattle.il_assemble.specs.Written.{written, written_inner};

use crate::names::{Known, known_as};
use crate::scope::Scope;
use il_reader::{Action, External, InnerLine, Operand, Simple, Statement};
use point_types::Name;
use scan_code::Tag;
use std::alloc::{AllocError, Global};

/// Notes a use of an external; the first one counts.
fn note(uses: &mut [Option<bool>], place: usize, stored: bool)
    ensures { uses.new ≡ noted uses.old place stored }
{
    match uses.get(place) {
        Some(None) => uses[place] = Some(stored),
        _ => {}
    }
}

/// Notes that a name is loaded; where it is a presence, its external is.
fn note_load(scope: Scope<'_, '_, '_>, uses: &mut [Option<bool>], name: &Name)
    ensures { uses.new ≡ noted_load uses.old (known_as (seen scope.entry) name.now) }
{
    match known_as(scope, name) {
        Some(Known::External(place)) => note(uses, place, false),
        Some(Known::Presence(place)) => note(uses, place, false),
        Some(Known::Variable(_)) | None => {}
    }
}

/// Notes that a name is stored.
fn note_store(scope: Scope<'_, '_, '_>, uses: &mut [Option<bool>], name: &Name)
    ensures { uses.new ≡ noted_store uses.old (known_as (seen scope.entry) name.now) }
{
    match known_as(scope, name) {
        Some(Known::External(place)) => note(uses, place, true),
        Some(Known::Variable(_)) | Some(Known::Presence(_)) | None => {}
    }
}

fn note_operand(scope: Scope<'_, '_, '_>, uses: &mut [Option<bool>], operand: &Operand)
    ensures { uses.new ≡ uses_of_operand (seen scope.entry) uses.old operand.now }
{
    match operand {
        Operand::Named(name) => note_load(scope, uses, name),
        Operand::Truth(_) | Operand::Number(_) | Operand::Typed(_, _) => {}
    }
}

/// Notes what an instruction loads, the lines inside its parentheses among it.
#[cycle(note_simple)]
fn note_simple(scope: Scope<'_, '_, '_>, uses: &mut [Option<bool>], simple: &Simple)
    ensures { uses.new ≡ uses_of_simple (seen scope.entry) uses.old (written simple.now) }
{
    match simple {
        Simple::Load { operand, .. } | Simple::Apply { operand, .. } => {
            note_operand(scope, uses, operand)
        }
        Simple::Defer { operand, inner, .. } => {
            note_first(scope, uses, operand);
            note_inner(scope, uses, inner.as_slice())
        }
        Simple::Limit { input, most } => {
            note_operand(scope, uses, input);
            note_operand(scope, uses, most)
        }
        Simple::Select { if_false, if_true } => {
            note_operand(scope, uses, if_false);
            note_operand(scope, uses, if_true)
        }
        Simple::Invert | Simple::Absolute | Simple::Convert { .. } => {}
    }
}

fn note_first(scope: Scope<'_, '_, '_>, uses: &mut [Option<bool>], first: &Option<Operand>)
    ensures { uses.new ≡ uses_of_first (seen scope.entry) uses.old first.now }
{
    if let Some(operand) = first {
        note_operand(scope, uses, operand)
    }
}

#[cycle(note_simple)]
fn note_inner(scope: Scope<'_, '_, '_>, uses: &mut [Option<bool>], inner: &[InnerLine])
    ensures { uses.new ≡ uses_of_inner (seen scope.entry) uses.old (written_inner inner.now) }
{
    for line in inner {
        note_simple(scope, uses, &line.simple);
    }
}

fn note_action(scope: Scope<'_, '_, '_>, uses: &mut [Option<bool>], action: &Option<Action>)
    ensures { uses.new ≡ uses_of_action (seen scope.entry) uses.old action.now }
{
    match action {
        Some(Action::Compute(computation)) => note_simple(scope, uses, computation.as_simple()),
        Some(Action::Store { name, .. }) => note_store(scope, uses, name),
        Some(Action::Set { name, .. }) => note_store(scope, uses, name),
        Some(Action::Jump { .. }) | Some(Action::Return(_)) | None => {}
    }
}

/// Notes, for each external, whether its first use is a store; none where it isn't used.
pub(crate) fn note_uses(
    scope: Scope<'_, '_, '_>,
    uses: &mut [Option<bool>],
    statements: &[Statement],
)
    ensures { uses.new ≡ uses_after (seen scope.entry) uses.old statements.now }
{
    for statement in statements {
        note_action(scope, uses, &statement.action);
    }
}

/// The tags of the used externals, in the order of their declarations.
pub(crate) fn tags(
    alloc: Global,
    externals: &[External],
    uses: &[Option<bool>],
) -> Result<Vec<Tag>, AllocError>
    ensures { IfOk result (λ tags. tags.items ≡ tags_of externals.now uses.now) }
{
    let mut tags = Vec::new(alloc);
    let mut others = uses;
    for external in externals {
        let [stored, after @ ..] = others else {
            return Ok(tags);
        };
        push_tag(&mut tags, external, *stored)?;
        others = after;
    }
    Ok(tags)
}

/// Appends the tag of an external, where it is used.
fn push_tag(
    tags: &mut Vec<Tag>,
    external: &External,
    stored: Option<bool>,
) -> Result<(), AllocError>
    ensures { OnOk result ((es : List External) (us : List (Option Bool)) → tags.new.items ++ tags_of es us ≡ tags.old.items ++ tags_of (external.now ∷ es) (stored ∷ us)) }
{
    let Some(output) = stored else {
        return Ok(());
    };
    tags.push(Tag {
        name: external.name,
        output,
        kind: external.kind,
    })?;
    Ok(())
}

/// How many externals before one are used: its tag's place.
pub(crate) fn tag_place(uses: &[Option<bool>], place: usize) -> usize
    ensures is { result ≡ tag_place uses.now place }
    ensures few { result ≤ place }
{
    let mut used = 0;
    let mut before = place;
    let mut others = uses;
    while let [stored, after @ ..] = others {
        if before == 0 {
            return used;
        }
        if stored.is_some() {
            used += 1;
        }
        before -= 1;
        others = after;
    }
    used
}

/// Whether an external is an input.
pub(crate) fn is_loaded(uses: &[Option<bool>], place: usize) -> bool
    ensures { result ≡ is_loaded (slice_get uses.now place) }
{
    match uses.get(place) {
        Some(Some(stored)) => !*stored,
        Some(None) | None => false,
    }
}

/// Whether an external is an output.
pub(crate) fn is_stored(uses: &[Option<bool>], place: usize) -> bool
    ensures { result ≡ is_stored (slice_get uses.now place) }
{
    match uses.get(place) {
        Some(Some(stored)) => *stored,
        Some(None) | None => false,
    }
}
