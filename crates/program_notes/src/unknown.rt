//! What is told of names and labels that aren't there, by the tree of the program.
use crate::fault_words::{FaultWords, Hint};
use crate::nearest::Nearest;
use crate::uses::{Use, uses_in};
use il_reader::{Action, Program};
use point_types::Name;
use std::alloc::{AllocError, Global};

/// What stands after the name of an external whose presence is meant.
const PRESENCE: &str = "_ok";

const UNDECLARED: Hint = Hint {
    meaning: "{} isn't declared",
    help: "declare it: in VAR for a variable of the program, in VAR_EXTERNAL for a tag of the site",
};

const NO_PRESENCE: Hint = Hint {
    meaning: "{} would be the presence of a variable, which has none",
    help: "a variable always has a value; only an external that is loaded has a presence, its name with _OK after it",
};

const NOT_STORED: Hint = Hint {
    meaning: "{} is the presence of an external, and isn't stored",
    help: "store to the external itself, where programs store that tag, or to a variable",
};

const NO_LABEL: Hint = Hint {
    meaning: "no line has the label {}",
    help: "write the label before a line, with a colon",
};

/// What is told of the first name on a line that stands for nothing there; none where no such name is found.
pub(crate) fn unknown_name(
    alloc: Global,
    program: &Program,
    line: u32,
) -> Result<Option<FaultWords>, AllocError> {
    let uses = uses_in(alloc, program)?;
    for one in uses.as_slice() {
        if one.line == line {
            if let Some(told) = told_of_use(alloc, program, one)? {
                return Ok(Some(told));
            }
        }
    }
    Ok(None)
}

/// What is told of a use whose name stands for nothing.
fn told_of_use(
    alloc: Global,
    program: &Program,
    one: &Use,
) -> Result<Option<FaultWords>, AllocError> {
    let name = one.name.as_str();
    if is_variable(program, name) || is_external(program, name) {
        return Ok(None);
    }
    let told = match name.strip_suffix(PRESENCE) {
        Some(front) if is_variable(program, front) => FaultWords::named(alloc, name, NO_PRESENCE)?,
        Some(front) if is_external(program, front) => {
            if !one.stored {
                return Ok(None);
            }
            FaultWords::named(alloc, name, NOT_STORED)?
        }
        _ => {
            let question = name_meant(alloc, program, one)?;
            FaultWords::named(alloc, name, UNDECLARED)?.knowing(question.as_str())?
        }
    };
    Ok(Some(told))
}

fn is_variable(program: &Program, name: &str) -> bool {
    for variable in program.variables.as_slice() {
        if variable.var.name.as_str() == name {
            return true;
        }
    }
    false
}

fn is_external(program: &Program, name: &str) -> bool {
    for external in program.externals.as_slice() {
        if external.name.as_str() == name {
            return true;
        }
    }
    false
}

/// The question whether a declared name is meant, or the presence of an external where it is loaded; empty where none is
/// near.
fn name_meant(alloc: Global, program: &Program, one: &Use) -> Result<String, AllocError> {
    let mut nearest = Nearest::to(alloc, one.name.as_str());
    for variable in program.variables.as_slice() {
        nearest.offer(variable.var.name.as_str())?;
    }
    for external in program.externals.as_slice() {
        let name = external.name.as_str();
        nearest.offer(name)?;
        if !one.stored {
            let presence = format!(in alloc; "{name}_OK")?;
            nearest.offer(presence.as_str())?;
        }
    }
    nearest.question(alloc)
}

/// What is told of the jump on a line whose label isn't there; none where no such jump is found.
pub(crate) fn unknown_label(
    alloc: Global,
    program: &Program,
    line: u32,
) -> Result<Option<FaultWords>, AllocError> {
    let Some(label) = label_jumped_to(program, line) else {
        return Ok(None);
    };
    let mut nearest = Nearest::to(alloc, label.as_str());
    for statement in program.statements.as_slice() {
        if let Some(other) = &statement.label {
            nearest.offer(other.as_str())?;
        }
    }
    let question = nearest.question(alloc)?;
    let told = FaultWords::named(alloc, label.as_str(), NO_LABEL)?;
    Ok(Some(told.knowing(question.as_str())?))
}

/// Where the label stands to which the jump on a line leads, in words; empty where no such label is found.
pub(crate) fn label_place(
    alloc: Global,
    program: &Program,
    line: u32,
) -> Result<String, AllocError> {
    if let Some(label) = label_jumped_to(program, line) {
        for statement in program.statements.as_slice() {
            if is_named(&statement.label, &label) {
                let place = statement.line;
                return format!(in alloc; "the label stands in line {place}");
            }
        }
    }
    Ok(String::new(alloc))
}

fn is_named(label: &Option<Name>, name: &Name) -> bool {
    match label {
        Some(label) => label.as_bytes() == name.as_bytes(),
        None => false,
    }
}

/// The label to which the jump on a line leads.
fn label_jumped_to(program: &Program, line: u32) -> Option<Name> {
    for statement in program.statements.as_slice() {
        if statement.line == line {
            if let Some(Action::Jump { label, .. }) = &statement.action {
                return Some(*label);
            }
        }
    }
    None
}
