//! The variables that are kept over a restart: their names in the site file, and their lines in the file of what is kept.
ghost use Rattle.std.specs.Prelude.{◌≡◌, ◌≢◌, ◌++◌, ℕ, ℤ, [], Ok, Err, IfErr, IfOk, OnOk, MatchOption, slice_get};
ghost use Rattle.std.specs.List.{position};
ghost use Rattle.toml.specs.View.{view, items_view};
ghost use Rattle.service_texts.specs.Retaining.{Keeps, is_among, is_said, may_be_kept, name_at, name_from, names_after, names_in, retained_in, variable_line, variables_text, with_kept};
ghost use Rattle.service_texts.specs.declared.retaining.RetainFault.TheVariants as fault;

use crate::state_lines::{push_setting, setting_in};
use file_keys::{TomlFile, optional_texts_at};
use point_types::{Items, Name, Var};
use scan_vm::may_begin;
use std::alloc::{AllocError, Global};
use toml::Value;

/// With what a line begins that keeps a variable.
const MARK: &[u8] = b"VAR ";

/// Why it isn't known which variables are kept.
#[derive(Clone, Copy, PartialEq, Eq, Debug)]
pub enum RetainFault {
    /// The text is no site file.
    NotToml,
    /// `retain` is no list of texts.
    NoList,
    /// The entry of `retain` with this number is no name of a variable.
    NoName(usize),
    /// Memory was refused.
    OutOfMemory,
}

impl From<AllocError> for RetainFault {
    ghost use Rattle.std.specs.Prelude.{◌≡◌};
    ghost use Rattle.service_texts.specs.declared.retaining.RetainFault.TheVariants.{OutOfMemory};

    ghost from_gives = { λ _ e. e ≡ OutOfMemory };

    fn from(_refused: AllocError) -> Self {
        RetainFault::OutOfMemory
    }
}

/// The names of the variables that a site file wants to be kept: the list `retain` of its section `gateway`, in order; none
/// where the key isn't there.
pub fn retained_names(alloc: Global, site: &TomlFile<'_>) -> Result<Items<Name>, RetainFault>
    ensures told { IfOk result (λ names. retained_in site.now ≡ Ok names) }
    ensures refused { IfErr result (λ e. e ≢ fault.OutOfMemory → retained_in site.now ≡ Err e) }
{
    match site.tree() {
        Ok(tree) => names_in(alloc, tree),
        Err(_) => Err(RetainFault::NotToml),
    }
}

fn names_in(alloc: Global, file: &Value) -> Result<Items<Name>, RetainFault>
    ensures told { IfOk result (λ names. names_in (view file.now) ≡ Ok names) }
    ensures refused { IfErr result (λ e. e ≢ fault.OutOfMemory → names_in (view file.now) ≡ Err e) }
{
    let Some(gateway) = file.get("gateway") else {
        return Err(RetainFault::NotToml);
    };
    match optional_texts_at(gateway, "retain") {
        Some(Some(texts)) => names_after(alloc, texts),
        Some(None) => Ok(Items::new(alloc)),
        None => Err(RetainFault::NoList),
    }
}

fn names_after(alloc: Global, texts: &[Value]) -> Result<Items<Name>, RetainFault>
    ensures told { IfOk result (λ names. names_after [] (items_view texts.now) ≡ Ok names) }
    ensures refused { IfErr result (λ e. e ≢ fault.OutOfMemory → names_after [] (items_view texts.now) ≡ Err e) }
{
    let mut names = Items::new(alloc);
    for text in texts {
        let name = name_at(names.len(), text)?;
        names.push(name)?;
    }
    Ok(names)
}

/// The name that the text with this number is.
fn name_at(number: usize, text: &Value) -> Result<Name, RetainFault>
    ensures { result ≡ name_at number (view text.now) }
{
    match name_from(text) {
        Some(name) => Ok(name),
        None => Err(RetainFault::NoName(number)),
    }
}

fn name_from(text: &Value) -> Option<Name>
    ensures { result ≡ name_from (view text.now) }
{
    Name::from_bytes(text.as_str()?.as_bytes())
}

/// Whether a variable is one of those that are kept.
pub fn is_among(names: &[Name], var: &Var) -> bool
    ensures { result ≡ is_among names.now var.now.name }
{
    names.iter().any(|name| name.as_str() == var.name.as_str())
}

/// A number that is kept of a variable.
#[derive(Clone, Copy, PartialEq, Eq, Debug)]
pub struct KeptNumber {
    /// The number of the variable among those of the program.
    pub variable: usize,
    /// In the variable's declared range.
    pub number: i64,
}

/// What a line keeps of a program's variables, of which those of these names are kept: the number that it says of `VAR NAME`,
/// where that is the name of a variable that is kept and the number lies in its declared range.
#[tactic(auto, using(crate::proofs::KeptVariables::no_setting, crate::proofs::KeptVariables::no_variable, crate::proofs::KeptVariables::not_kept, crate::proofs::KeptVariables::is_kept))]
pub fn kept_by(vars: &[Var], names: &[Name], line: &str) -> Option<KeptNumber>
    ensures { MatchOption result ((i : ℕ) (number : ℤ) → Keeps vars.now names.now line.now i number → ⊥) (λ kept. Keeps vars.now names.now line.now kept.variable kept.number) }
{
    let setting = setting_in(line)?;
    let variable = variable_said(vars, setting.name)?;
    if may_be_kept(names, setting.number, variable_at(vars, variable)) {
        Some(KeptNumber {
            variable,
            number: setting.number,
        })
    } else {
        None
    }
}

/// The number of the variable that a line's name says.
fn variable_said(vars: &[Var], name: &str) -> Option<usize>
    ensures { result ≡ position (is_said name.now) vars.now }
{
    vars.iter().position(|var| is_said(name, var))
}

/// Whether a line's name is `VAR ` and the variable's.
fn is_said(name: &str, var: &Var) -> bool
    ensures { result ≡ is_said name.now var.now }
{
    match name.as_bytes().strip_prefix(MARK) {
        Some(rest) => rest == var.name.as_bytes(),
        None => false,
    }
}

/// Whether a number of a variable, where there is one, may be kept.
fn may_be_kept(names: &[Name], number: i64, var: Option<Var>) -> bool
    ensures { result ≡ may_be_kept names.now number var }
{
    match var {
        Some(var) => is_among(names, &var) && may_begin(&var, number),
        None => false,
    }
}

/// The variable of this number.
fn variable_at(vars: &[Var], i: usize) -> Option<Var>
    ensures { result ≡ slice_get vars.now i }
{
    match vars.get(i) {
        Some(var) => Some(*var),
        None => None,
    }
}

/// What a text keeps of a program's variables, an entry for each in their order. Of two lines of one variable the last counts.
pub fn kept_numbers(
    alloc: Global,
    vars: &[Var],
    names: &[Name],
    text: &str,
) -> Result<Vec<Option<i64>>, AllocError> {
    let mut kept: Vec<Option<i64>> = vars.iter().map(|_| None).collect(alloc)?;
    for line in text.lines() {
        keep(&mut kept, kept_by(vars, names, line));
    }
    Ok(kept)
}

/// Takes what a line keeps.
fn keep(numbers: &mut [Option<i64>], kept: Option<KeptNumber>)
    ensures { numbers.new ≡ with_kept kept numbers.old }
{
    if let Some(kept) = kept {
        if kept.variable < numbers.len() {
            numbers[kept.variable] = Some(kept.number);
        }
    }
}

/// The lines of the variables that are kept with a number, in their order.
pub fn variables_text(
    alloc: Global,
    vars: &[Var],
    numbers: &[Option<i64>],
) -> Result<Vec<u8>, AllocError>
    ensures { IfOk result (λ text. text.items ≡ variables_text vars.now numbers.now) }
{
    let mut text = Vec::new(alloc);
    let mut vars = vars;
    let mut numbers = numbers;
    while let Some((var, more_vars)) = vars.split_first() {
        let Some((number, more_numbers)) = numbers.split_first() else {
            break;
        };
        push_variable(&mut text, alloc, &var.name, *number)?;
        vars = more_vars;
        numbers = more_numbers;
    }
    Ok(text)
}

/// Appends the line of a variable, where it is kept.
fn push_variable(
    text: &mut Vec<u8>,
    alloc: Global,
    name: &Name,
    number: Option<i64>,
) -> Result<(), AllocError>
    ensures { OnOk result (text.new.items ≡ text.old.items ++ variable_line name.now number) }
{
    match number {
        Some(number) => {
            text.extend_from_slice(MARK)?;
            push_setting(text, alloc, name, number)
        }
        None => Ok(()),
    }
}
