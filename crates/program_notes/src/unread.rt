//! What is told of a text that can't be read.
use crate::comments::stray_end;
use crate::declaring::no_declaration;
use crate::fault_words::{FaultWords, Hint};
use crate::instructing::{no_label, no_operand, no_operator, no_parenthesis};
use crate::limits::{too_long_text, too_many};
use crate::met::Met;
use crate::numbers::no_number;
use crate::pieces::pieces_of;
use crate::wording::{no_frame, no_second, no_word, unclosed};
use il_reader::{FaultPlace, ReadFaultKind};
use note_text::Code;
use std::alloc::{AllocError, Global};

const EMPTY: Hint = Hint {
    meaning: "the text is empty",
    help: "write PROGRAM and a name, declarations, instructions and END_PROGRAM; look whether this is the file that is meant",
};

/// What is told of a text that can't be read, by what is met at its fault; none where no more is known than the kind.
pub fn told_of_unread(
    alloc: Global,
    text: &str,
    place: FaultPlace,
) -> Result<Option<FaultWords>, AllocError> {
    if text.trim().is_empty() {
        return Ok(Some(FaultWords::new(alloc, EMPTY)));
    }
    if place.fault.kind == ReadFaultKind::TooLong && place.behind == 0 {
        return Ok(Some(too_long_text(alloc)));
    }
    let code = Code::of(alloc, text)?;
    if let (ReadFaultKind::Word, Some(open)) = (place.fault.kind, code.open) {
        if place.behind == text.len() {
            return Ok(Some(unclosed(alloc, open)));
        }
    }
    if let Some(told) = stray_end(alloc, text, code.text.as_str(), place.at)? {
        return Ok(Some(told));
    }
    let pieces = pieces_of(alloc, code.text.as_str())?;
    let met = Met::at_place(code.text.as_str(), pieces.as_slice(), place);
    told_by_kind(alloc, &met)
}

fn told_by_kind(alloc: Global, met: &Met<'_, '_>) -> Result<Option<FaultWords>, AllocError> {
    let told = match met.kind {
        ReadFaultKind::Word => return Ok(no_word(alloc, met)),
        ReadFaultKind::Literal => return no_number(alloc, met),
        ReadFaultKind::Header => no_frame(alloc, met)?,
        ReadFaultKind::Declaration => no_declaration(alloc, met)?,
        ReadFaultKind::Operator => no_operator(alloc, met)?,
        ReadFaultKind::Operand => no_operand(alloc, met)?,
        ReadFaultKind::Label => no_label(alloc, met)?,
        ReadFaultKind::Parenthesis => no_parenthesis(alloc, met)?,
        ReadFaultKind::Duplicate => no_second(alloc, met)?,
        ReadFaultKind::TooLong => too_many(alloc, met),
        ReadFaultKind::OutOfMemory => return Ok(None),
    };
    Ok(Some(told))
}
