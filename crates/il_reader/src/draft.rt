//! A program as far as it is read.
ghost use Rattle.std.specs.Prelude.{◌≡◌, IfOk, map};

use crate::scope::{Scope, is_listed};
use crate::tree::{Action, External, Program, Statement, Variable};
use crate::typing::{Entry, Typing};
use point_types::{IlType, Items, Name};
use std::alloc::{AllocError, Global};

/// The line of a statement's first token, and its label.
#[derive(Clone, Copy)]
pub(crate) struct Head {
    pub line: u32,
    pub label: Option<Name>,
}

/// A program as far as it has been read.
pub(crate) struct Draft {
    pub name: Name,
    /// The names that are declared, those of the declaration that is being read included.
    pub scope: Scope,
    pub variables: Items<Variable>,
    pub externals: Items<External>,
    /// The names of the declaration that is being read.
    pub pending: Items<Entry>,
    pub labels: Items<Name>,
    pub statements: Items<Statement>,
}

/// A call for whoever drops one: the proofs of the functions that own one needn't take it apart.
impl Drop for Draft {
    fn drop(self) {
        let Draft {
            name: _,
            scope: _,
            variables: _,
            externals: _,
            pending: _,
            labels: _,
            statements: _,
        } = self;
    }
}

impl Draft {
    ghost use Rattle.std.specs.Prelude.{◌≡◌, IfOk};
    ghost use Rattle.il_reader.specs.Declaration.{among};
    ghost use Rattle.il_reader.specs.Drafting.{program_of, titled_draft, with_entry, with_externals, with_label, with_statement, with_variables};

    /// A program of which the name is read.
    pub(crate) fn titled(alloc: Global, name: Name) -> Draft
        ensures { result ≡ titled_draft name }
    {
        Draft {
            name,
            scope: Scope::new(alloc),
            variables: Items::new(alloc),
            externals: Items::new(alloc),
            pending: Items::new(alloc),
            labels: Items::new(alloc),
            statements: Items::new(alloc),
        }
    }

    /// One more name in the declaration, of a variable or an external.
    pub(crate) fn declare(
        mut self,
        external: bool,
        line: u32,
        name: Name,
    ) -> Result<Draft, AllocError>
        ensures { IfOk result (λ d. d ≡ with_entry external self line name) }
    {
        self.scope.declare(external, name)?;
        self.pending.push(Entry { line, name })?;
        Ok(self)
    }

    /// The end of the declaration: its names become variables.
    pub fn close(self, alloc: Global, typing: Typing) -> Result<Draft, AllocError>
        ensures { IfOk result (λ d. d ≡ with_variables self typing) }
    {
        let Draft {
            name,
            scope,
            variables,
            externals,
            pending,
            labels,
            statements,
        } = self;
        let variables = with_typed(variables, pending.as_slice(), &typing)?;
        Ok(Draft {
            name,
            scope,
            variables,
            externals,
            pending: Items::new(alloc),
            labels,
            statements,
        })
    }

    /// The end of the declaration: its names become externals.
    pub(crate) fn close_externals(self, alloc: Global, kind: IlType) -> Result<Draft, AllocError>
        ensures { IfOk result (λ d. d ≡ with_externals self kind) }
    {
        let Draft {
            name,
            scope,
            variables,
            externals,
            pending,
            labels,
            statements,
        } = self;
        let externals = with_named(externals, pending.as_slice(), kind)?;
        Ok(Draft {
            name,
            scope,
            variables,
            externals,
            pending: Items::new(alloc),
            labels,
            statements,
        })
    }

    /// Whether a line has this label.
    pub(crate) fn has_label(&self, name: &Name) -> bool
        ensures { result ≡ among name.now self.now.labels }
    {
        is_listed(name.as_bytes(), self.labels.as_slice())
    }

    /// One more label.
    pub fn label(mut self, name: Name) -> Result<Draft, AllocError>
        ensures { IfOk result (λ d. d ≡ with_label self name) }
    {
        self.labels.push(name)?;
        Ok(self)
    }

    /// One more line of the body.
    pub fn add(mut self, head: Head, action: Option<Action>) -> Result<Draft, AllocError>
        ensures { IfOk result (λ d. d ≡ with_statement self head action) }
    {
        let Head { line, label } = head;
        self.statements.push(Statement {
            line,
            label,
            action,
        })?;
        Ok(self)
    }

    /// The program, whose last line is this one.
    pub(crate) fn finish(self, end_line: u32) -> Program
        ensures { result ≡ program_of self end_line }
    {
        let Draft {
            name,
            scope: _,
            variables,
            externals,
            pending: _,
            labels: _,
            statements,
        } = self;
        Program {
            name,
            variables,
            externals,
            statements,
            end_line,
        }
    }
}

ghost use Rattle.std.specs.Prelude.{◌++◌, ◌∷◌, []};
ghost use Rattle.il_reader.specs.Declaration.{external_of, variable_of};

// The variables, and after them those of a declaration.
fn with_typed(
    mut variables: Items<Variable>,
    entries: &[Entry],
    typing: &Typing,
) -> Result<Items<Variable>, AllocError>
    ensures { IfOk result (λ vs. vs ≡ variables ++ map (variable_of typing.now) entries.now) }
{
    for entry in entries {
        variables.push(typing.variable(*entry))?;
    }
    Ok(variables)
}

// The externals, and after them those of a declaration.
fn with_named(
    mut externals: Items<External>,
    entries: &[Entry],
    kind: IlType,
) -> Result<Items<External>, AllocError>
    ensures { IfOk result (λ es. es ≡ externals ++ map (external_of kind) entries.now) }
{
    for entry in entries {
        externals.push(external(kind, *entry))?;
    }
    Ok(externals)
}

// The external of a name.
fn external(kind: IlType, entry: Entry) -> External
    ensures { result ≡ external_of kind entry }
{
    External {
        line: entry.line,
        name: entry.name,
        kind,
    }
}
