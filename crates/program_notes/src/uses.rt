//! Where the names of a program are loaded and stored.
use il_reader::{Action, External, InnerLine, Operand, Program, Simple};
use point_types::Name;
use std::alloc::{AllocError, Global};

/// What stands after the name of an external whose presence is meant.
const PRESENCE: &[u8] = b"_ok";

/// A load or a store of a name, and its line.
#[derive(Clone, Copy)]
pub(crate) struct Use {
    pub line: u32,
    pub name: Name,
    /// Whether it is stored.
    pub stored: bool,
}

/// Where an external that is used on this line is used the other way first, in words; empty where none is.
pub(crate) fn other_use_text(
    alloc: Global,
    program: &Program,
    line: u32,
) -> Result<String, AllocError> {
    let uses = uses_in(alloc, program)?;
    let Some(other) = other_use(program.externals.as_slice(), uses.as_slice(), line) else {
        return Ok(String::new(alloc));
    };
    let verb = if other.stored { "stored" } else { "loaded" };
    let line = other.line;
    let text = format!(in alloc; "it is {verb} in line {line}")?;
    Ok(text)
}

/// The first use of an external of this line, where it is of the other kind.
fn other_use(externals: &[External], uses: &[Use], line: u32) -> Option<Use> {
    for here in uses {
        if here.line == line {
            if let Some(first) = first_unlike(externals, uses, here) {
                return Some(first);
            }
        }
    }
    None
}

/// The first use of the same external, where it is of the other kind.
fn first_unlike(externals: &[External], uses: &[Use], here: &Use) -> Option<Use> {
    let first = first_use(externals, uses, &here.name)?;
    if first.stored == here.stored {
        None
    } else {
        Some(first)
    }
}

/// The first use of the external that a name means.
fn first_use(externals: &[External], uses: &[Use], name: &Name) -> Option<Use> {
    let external = external_of(externals, name)?;
    for one in uses {
        if means(&one.name, &external) {
            return Some(*one);
        }
    }
    None
}

/// The external that a name means, as itself or as its presence.
fn external_of(externals: &[External], name: &Name) -> Option<Name> {
    for external in externals {
        if means(name, &external.name) {
            return Some(external.name);
        }
    }
    None
}

fn means(name: &Name, external: &Name) -> bool {
    match name.as_bytes().strip_prefix(external.as_bytes()) {
        Some(ending) => ending.is_empty() || ending == PRESENCE,
        None => false,
    }
}

/// All loads and stores of names, in the order of the text.
pub(crate) fn uses_in(alloc: Global, program: &Program) -> Result<Vec<Use>, AllocError> {
    let mut uses = Vec::new(alloc);
    for statement in program.statements.as_slice() {
        if let Some(action) = &statement.action {
            push_action(&mut uses, statement.line, action)?;
        }
    }
    Ok(uses)
}

fn push_action(uses: &mut Vec<Use>, line: u32, action: &Action) -> Result<(), AllocError> {
    match action {
        Action::Compute(computation) => push_simple(uses, line, computation.as_simple()),
        Action::Store { name, .. } => push_name(uses, line, name, true),
        Action::Set { name, .. } => push_name(uses, line, name, true),
        Action::Jump { .. } | Action::Return(_) => Ok(()),
    }
}

/// Appends what an instruction loads, and the lines inside its parentheses.
#[cycle(push_simple)]
fn push_simple(uses: &mut Vec<Use>, line: u32, simple: &Simple) -> Result<(), AllocError> {
    match simple {
        Simple::Load { operand, .. } | Simple::Apply { operand, .. } => {
            push_operand(uses, line, operand)
        }
        Simple::Defer { operand, inner, .. } => {
            if let Some(operand) = operand {
                push_operand(uses, line, operand)?;
            }
            push_inner(uses, inner.as_slice())
        }
        Simple::Limit { input, most } => push_both(uses, line, input, most),
        Simple::Select { if_false, if_true } => push_both(uses, line, if_false, if_true),
        Simple::Invert | Simple::Absolute | Simple::Convert { .. } => Ok(()),
    }
}

#[cycle(push_simple)]
fn push_inner(uses: &mut Vec<Use>, inner: &[InnerLine]) -> Result<(), AllocError> {
    for line in inner {
        push_simple(uses, line.line, &line.simple)?;
    }
    Ok(())
}

fn push_both(
    uses: &mut Vec<Use>,
    line: u32,
    one: &Operand,
    other: &Operand,
) -> Result<(), AllocError> {
    push_operand(uses, line, one)?;
    push_operand(uses, line, other)
}

fn push_operand(uses: &mut Vec<Use>, line: u32, operand: &Operand) -> Result<(), AllocError> {
    match operand {
        Operand::Named(name) => push_name(uses, line, name, false),
        Operand::Truth(_) | Operand::Number(_) | Operand::Typed(_, _) => Ok(()),
    }
}

fn push_name(uses: &mut Vec<Use>, line: u32, name: &Name, stored: bool) -> Result<(), AllocError> {
    uses.push(Use {
        line,
        name: *name,
        stored,
    })?;
    Ok(())
}
