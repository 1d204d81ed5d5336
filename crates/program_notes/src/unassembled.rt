//! What is told of a program that has no code.
use crate::fault_words::FaultWords;
use crate::kinds::misfit;
use crate::limits::too_much;
use crate::unknown::{label_place, unknown_label, unknown_name};
use crate::uses::other_use_text;
use il_assemble::{AsmFault, AsmFaultKind};
use il_reader::Program;
use std::alloc::{AllocError, Global};

/// What is told of a name or a label that isn't there, of a number that doesn't fit, or of the limit that is met; none for
/// other faults.
pub fn told_of_unassembled(
    alloc: Global,
    program: &Program,
    fault: AsmFault,
) -> Result<Option<FaultWords>, AllocError> {
    match fault.kind {
        AsmFaultKind::UnknownName => unknown_name(alloc, program, fault.line),
        AsmFaultKind::UnknownLabel => unknown_label(alloc, program, fault.line),
        AsmFaultKind::LiteralType => misfit(alloc, program),
        AsmFaultKind::TooLong => Ok(Some(too_much(alloc, program, fault.line))),
        _ => Ok(None),
    }
}

/// What is known where a program has no code; empty where nothing is.
pub fn known_of_unassembled(
    alloc: Global,
    program: &Program,
    fault: AsmFault,
) -> Result<String, AllocError> {
    match fault.kind {
        AsmFaultKind::LoadAndStore => other_use_text(alloc, program, fault.line),
        AsmFaultKind::BackwardJump | AsmFaultKind::ForwardLoop => {
            label_place(alloc, program, fault.line)
        }
        _ => Ok(String::new(alloc)),
    }
}
