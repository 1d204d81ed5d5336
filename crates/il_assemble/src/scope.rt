//! What a statement is assembled against.
ghost use Rattle.std.specs.Prelude.{◌≤◌, length};
ghost use Rattle.il_reader.specs.Limit.{most_names};
ghost use Rattle.name_places.specs.Places.{IsPlaced};
ghost use Rattle.il_assemble.specs.Names.{is_called, is_external};
ghost use Rattle.il_assemble.specs.StaticFault.{is_labelled};

use crate::places::Tables;
use il_reader::{External, Statement, Variable};

/// What the lines of a program see: its tables, whether each external is stored (else it is loaded; none
/// where it isn't used), and all lines, for their labels; and the places of the names in them.
#[derive(Clone, Copy)]
pub(crate) struct Scope<'a, 'n, 'u> {
    pub(crate) variables: &'a [Variable],
    pub(crate) externals: &'a [External],
    pub(crate) uses: &'u [Option<bool>],
    pub(crate) statements: &'a [Statement],
    pub(crate) tables: &'n Tables<'a>,
    pub(crate) ghost few_variables: { length variables.now ≤ most_names },
    pub(crate) ghost few_externals: { length externals.now ≤ most_names },
    pub(crate) ghost variables_placed: { IsPlaced is_called variables.now tables.now.variables.entries },
    pub(crate) ghost externals_placed: { IsPlaced is_external externals.now tables.now.externals.entries },
    pub(crate) ghost labels_placed: { IsPlaced is_labelled statements.now tables.now.labels.entries },
}
