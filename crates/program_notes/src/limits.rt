//! What is told of a program that has more than one may have.
use crate::fault_words::{FaultWords, Hint};
use crate::met::Met;
use il_reader::{Action, Program};
use std::alloc::Global;

/// The most counted jumps of a program.
const MOST_LOOPS: usize = 256;

const TOO_MANY_BYTES: Hint = Hint {
    meaning: "the text has more than 1,048,576 bytes",
    help: "split the program; look whether this is the file that is meant",
};

const TOO_MANY_VARIABLES: Hint = Hint {
    meaning: "a program has at most 1,024 variables",
    help: "take away those that nothing uses, or split the program",
};

const TOO_MANY_EXTERNALS: Hint = Hint {
    meaning: "a program has at most 1,024 externals",
    help: "take away those that nothing uses, or split the program",
};

const TOO_DEEP: Hint = Hint {
    meaning: "at most 100 parentheses stand one inside the other",
    help: "store parts of the expression in variables",
};

const TOO_MANY_LOOPS: Hint = Hint {
    meaning: "a program has at most 256 counted jumps",
    help: "take counted jumps away, or split the program",
};

const TOO_MUCH_CODE: Hint = Hint {
    meaning: "the code has more than 65,535 bytes",
    help: "shorten the program: an instruction takes 1 to 10 bytes",
};

/// What is told of a text that is too long to be read.
pub(crate) fn too_long_text(alloc: Global) -> FaultWords {
    FaultWords::new(alloc, TOO_MANY_BYTES)
}

/// What is told of a declaration or a parenthesis that is one too many.
pub(crate) fn too_many(alloc: Global, met: &Met<'_, '_>) -> FaultWords {
    let hint = match met.block() {
        Some(block) if block.is("VAR_EXTERNAL") => TOO_MANY_EXTERNALS,
        Some(_) => TOO_MANY_VARIABLES,
        None => TOO_DEEP,
    };
    FaultWords::new(alloc, hint)
}

/// What is told of a line whose code is too much.
pub(crate) fn too_much(alloc: Global, program: &Program, line: u32) -> FaultWords {
    let hint = if loops_to(program, line) > MOST_LOOPS {
        TOO_MANY_LOOPS
    } else {
        TOO_MUCH_CODE
    };
    FaultWords::new(alloc, hint)
}

/// How many counted jumps there are up to a line.
fn loops_to(program: &Program, line: u32) -> usize {
    let mut count = 0usize;
    for statement in program.statements.as_slice() {
        if statement.line <= line && is_counted(&statement.action) {
            count = count.saturating_add(1);
        }
    }
    count
}

fn is_counted(action: &Option<Action>) -> bool {
    match action {
        Some(Action::Jump { turns, .. }) => turns.is_some(),
        _ => false,
    }
}
