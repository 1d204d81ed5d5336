//! The places of a program's names in its tables.
ghost use Rattle.std.specs.Prelude.{IfOk};
ghost use Rattle.name_places.specs.Places.{IsPlaced};
ghost use Rattle.il_assemble.specs.Names.{is_called, is_external};
ghost use Rattle.il_assemble.specs.StaticFault.{is_labelled};

use il_reader::{External, Statement, Variable};
use name_places::{Places, note};
use std::alloc::{AllocError, Global};

/// The places of a program's variables, externals and labels.
pub(crate) struct Tables<'a> {
    pub(crate) variables: Places<'a>,
    pub(crate) externals: Places<'a>,
    pub(crate) labels: Places<'a>,
}

/// A call for whoever drops one: the proofs of the functions that own one needn't take it apart.
impl Drop for Tables<'_> {
    fn drop(self) {
        let Tables {
            variables: _,
            externals: _,
            labels: _,
        } = self;
    }
}

/// The places of all names.
pub(crate) fn all_places<'a>(
    alloc: Global,
    variables: &'a [Variable],
    externals: &'a [External],
    statements: &'a [Statement],
) -> Result<Tables<'a>, AllocError>
    ensures variables_placed { IfOk result (λ tables. IsPlaced is_called variables.now tables.variables.entries) }
    ensures externals_placed { IfOk result (λ tables. IsPlaced is_external externals.now tables.externals.entries) }
    ensures labels_placed { IfOk result (λ tables. IsPlaced is_labelled statements.now tables.labels.entries) }
{
    Ok(Tables {
        variables: variable_places(alloc, variables)?,
        externals: external_places(alloc, externals)?,
        labels: label_places(alloc, statements)?,
    })
}

/// The place of each variable.
fn variable_places<'a>(alloc: Global, variables: &'a [Variable]) -> Result<Places<'a>, AllocError>
    ensures { IfOk result (λ places. IsPlaced is_called variables.now places.entries) }
{
    let mut places = Places::new(alloc);
    for (place, variable) in variables.iter().enumerate() {
        note(&mut places, variable.var.name.as_str(), place)?;
    }
    Ok(places)
}

/// The place of each external.
fn external_places<'a>(alloc: Global, externals: &'a [External]) -> Result<Places<'a>, AllocError>
    ensures { IfOk result (λ places. IsPlaced is_external externals.now places.entries) }
{
    let mut places = Places::new(alloc);
    for (place, external) in externals.iter().enumerate() {
        note(&mut places, external.name.as_str(), place)?;
    }
    Ok(places)
}

/// The place of each label's line.
fn label_places<'a>(alloc: Global, statements: &'a [Statement]) -> Result<Places<'a>, AllocError>
    ensures { IfOk result (λ places. IsPlaced is_labelled statements.now places.entries) }
{
    let mut places = Places::new(alloc);
    for (place, statement) in statements.iter().enumerate() {
        if let Some(label) = &statement.label {
            note(&mut places, label.as_str(), place)?;
        }
    }
    Ok(places)
}
