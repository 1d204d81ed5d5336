//! From a program's tree to its image.
ghost use Rattle.std.specs.Prelude.{◌≡◌, ◌≤◌, ◌⊎◌, Ok, Err, None, length, IfOk, IfErr, map};
ghost use Rattle.il_assemble.specs.Assembled.{IsAssembled, IsRefused};
ghost use Rattle.il_assemble.specs.Code.{version_of};
ghost use Rattle.il_assemble.specs.Elaboration.{counted, declared_var, first_line, limits_of, measured, named_apart, scope_of, undivided};
ghost use Rattle.il_assemble.specs.Kept.{passed, seen, written_code};
ghost use Rattle.il_reader.specs.Limit.{most_names};
ghost use Rattle.il_assemble.specs.Names.{is_called, is_external, unused, uses_of};
ghost use Rattle.il_assemble.specs.StaticFault.{checked_lines, is_labelled};
ghost use Rattle.il_assemble.specs.Word.{out_of_memory};
ghost use Rattle.name_places.specs.Places.{IsPlaced};
ghost use Rattle.scan_code.specs.Image.{names_of};

use crate::check::check_lines;
use crate::emit::{count_turns, emit_lines};
use crate::fault::AsmFault;
use crate::limits::{check_bools, check_nesting, count_externals, count_variables, too_long};
use crate::measure::measure;
use crate::places::{Tables, all_places};
use crate::scope::Scope;
use crate::uses::{note_uses, tags};
use il_reader::{External, Program, Statement, Variable};
use point_types::{Items, Var};
use scan_code::{Image, Tag, have_names_of_their_own};
use std::alloc::{AllocError, Global};

/// Assembles a program (IEC 61131-3 edition 2, 3.2) into the image that a scan runs.
///
/// The machine's run over the image ends with the variables and outputs that the program means, or traps with
/// its fault, whatever its variables and inputs are. A fault names the first line at fault and the lowest
/// kind there; code that is too long and a counted jump too many come after all others, and the line of the
/// first is that whose code passes the limit, inside parentheses that of the inner instruction; line 0 is want
/// of memory. A program of more variables, externals or nested parentheses than a reader lets pass is too long
/// at the first one past the limit, and one in whose image a name would come twice at its first declaration;
/// a BOOL with another range than 0..1, which no text gives, is LiteralType at its declaration.
pub fn assemble(alloc: Global, program: &Program) -> Result<Image, AsmFault>
    ensures assembled { IfOk result (IsAssembled program.now) }
    ensures refused { IfErr result (IsRefused program.now) }
{
    let tables = all_places(
        alloc,
        program.variables.as_slice(),
        program.externals.as_slice(),
        program.statements.as_slice(),
    )?;
    assemble_with(alloc, program, &tables)
}

/// The same, where the places of the names are known.
fn assemble_with<'a>(
    alloc: Global,
    program: &'a Program,
    tables: &Tables<'a>,
) -> Result<Image, AsmFault>
    requires variables_placed { IsPlaced is_called program.now.variables tables.now.variables.entries }
    requires externals_placed { IsPlaced is_external program.now.externals tables.now.externals.entries }
    requires labels_placed { IsPlaced is_labelled program.now.statements tables.now.labels.entries }
    ensures assembled { IfOk result (IsAssembled program.now) }
    ensures refused { IfErr result (IsRefused program.now) }
{
    let variables = program.variables.as_slice();
    let externals = program.externals.as_slice();
    let statements = program.statements.as_slice();
    count_variables(variables)?;
    count_externals(externals)?;
    check_nesting(statements)?;
    check_bools(variables)?;
    let uses = find_uses(alloc, variables, externals, statements)?;
    let scope = Scope {
        variables,
        externals,
        uses: uses.as_slice(),
        statements,
        tables,
    };
    image_of(alloc, program, scope)
}

/// The image of a program that keeps the limits of its names, by what its lines see.
fn image_of(alloc: Global, program: &Program, scope: Scope<'_, '_, '_>) -> Result<Image, AsmFault>
    requires seen { seen scope ≡ scope_of program.now }
    requires counted { counted program.now.variables program.now.externals program.now.statements ≡ Ok tt }
    requires undivided { undivided program.now.variables ≡ Ok tt }
    ensures assembled { IfOk result (IsAssembled program.now) }
    ensures refused { IfErr result (IsRefused program.now) }
{
    let vars = declared(alloc, scope.variables)?;
    let tags = tags(alloc, scope.externals, scope.uses)?;
    tell_apart(
        scope.variables,
        scope.externals,
        vars.as_slice(),
        tags.as_slice(),
    )?;
    let code = code_of(alloc, scope, program.end_line)?;
    Ok(Image {
        version: version(scope.statements),
        vars: Items::from_vec(vars),
        tags: Items::from_vec(tags),
        code: Items::from_vec(code),
    })
}

/// The code of all lines, or the first fault in them.
fn code_of(alloc: Global, scope: Scope<'_, '_, '_>, end_line: u32) -> Result<Vec<u8>, AsmFault>
    ensures checked { IfOk result (λ _. checked_lines (seen scope.entry) 0 None scope.entry.statements.now ≡ Ok tt) }
    ensures short { IfOk result (λ _. measured (seen scope.entry) end_line 0 0 None scope.entry.statements.now ≡ Ok tt) }
    ensures coded { IfOk result (λ code. code.items ≡ written_code (seen scope.entry)) }
    ensures refused { IfErr result (λ fault. (passed (seen scope.entry) end_line ≡ Err fault) ⊎ (fault ≡ out_of_memory)) }
{
    let statements = scope.statements;
    check_lines(scope, statements)?;
    let addresses = measure(alloc, scope, statements, end_line)?;
    let mut code = Vec::new(alloc);
    emit_lines(&mut code, scope, addresses.as_slice(), statements)?;
    Ok(code)
}

/// Whether each external is stored by its first use; none where it isn't used.
fn find_uses(
    alloc: Global,
    variables: &[Variable],
    externals: &[External],
    statements: &[Statement],
) -> Result<Vec<Option<bool>>, AllocError>
    requires few_variables { length variables.now ≤ most_names }
    requires few_externals { length externals.now ≤ most_names }
    ensures { IfOk result (λ uses. uses.items ≡ uses_of variables.now externals.now statements.now) }
{
    let mut uses = unused(alloc, externals)?;
    let tables = all_places(alloc, variables, externals, &[])?;
    let scope = Scope {
        variables,
        externals,
        uses: &[],
        statements: &[],
        tables: &tables,
    };
    note_uses(scope, uses.as_mut_slice(), statements);
    Ok(uses)
}

fn unused(alloc: Global, externals: &[External]) -> Result<Vec<Option<bool>>, AllocError>
    ensures { IfOk result (λ uses. uses.items ≡ map unused externals.now) }
{
    externals.iter().map(|_| None).collect(alloc)
}

/// The variables of the image, in the order of their declarations.
fn declared(alloc: Global, variables: &[Variable]) -> Result<Vec<Var>, AllocError>
    ensures { IfOk result (λ vars. vars.items ≡ map declared_var variables.now) }
{
    variables.iter().map(|variable| variable.var).collect(alloc)
}

/// Whether no two of the image's variables and tags have one name.
fn tell_apart(
    variables: &[Variable],
    externals: &[External],
    vars: &[Var],
    tags: &[Tag],
) -> Result<(), AsmFault>
    ensures { result ≡ named_apart variables.now externals.now (names_of vars.now tags.now) }
{
    if have_names_of_their_own(vars, tags) {
        Ok(())
    } else {
        Err(too_long(first_line(variables, externals)))
    }
}

/// The line of the first declaration.
fn first_line(variables: &[Variable], externals: &[External]) -> u32
    ensures { result ≡ first_line variables.now externals.now }
{
    match (variables, externals) {
        ([variable, ..], _) => variable.line,
        ([], [external, ..]) => external.line,
        ([], []) => 0,
    }
}

/// The version of the image: counted jumps came with the second one.
fn version(statements: &[Statement]) -> u8
    ensures { result ≡ version_of (limits_of statements.now) }
{
    for statement in statements {
        if count_turns(&statement.action) > 0 {
            return 2;
        }
    }
    1
}
