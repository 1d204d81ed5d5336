//! Where the carets of a note stand, by the kind of refusal.
use facts::RefusalKind;
use il_assemble::AsmFaultKind;
use il_reader::FaultPlace;
use note_text::Mark;

/// For a text that can't be read: what is at fault; where that is the end of a line, what is missing before it.
pub fn mark_of_unread(text: &[u8], place: FaultPlace) -> Mark {
    if ends_line(text, place) {
        return Mark::Behind;
    }
    mark_of_bytes(text, place.at, place.behind)
}

/// For these bytes of a text, on the line of the first one.
pub fn mark_of_bytes(text: &[u8], at: usize, behind: usize) -> Mark {
    let count = behind.saturating_sub(at);
    Mark::Bytes(at.saturating_sub(line_start(text, at)), count)
}

/// Whether the end of a line is at fault.
pub fn ends_line(text: &[u8], place: FaultPlace) -> bool {
    match text.get(place.behind.saturating_sub(1)) {
        Some(byte) => *byte == b'\n',
        None => false,
    }
}

/// Where the line of a byte begins.
fn line_start(text: &[u8], at: usize) -> usize {
    let mut start = 0;
    for (place, byte) in text.iter().take(at).enumerate() {
        if *byte == b'\n' {
            start = place.saturating_add(1);
        }
    }
    start
}

/// For a line without code.
pub fn mark_of_unassembled(kind: AsmFaultKind) -> Mark {
    match kind {
        AsmFaultKind::UnknownName | AsmFaultKind::UnknownLabel => Mark::Name,
        AsmFaultKind::BackwardJump
        | AsmFaultKind::LoadAndStore
        | AsmFaultKind::LiteralType
        | AsmFaultKind::ForwardLoop => Mark::Operand,
        AsmFaultKind::TooLong | AsmFaultKind::OutOfMemory => Mark::Line,
    }
}

/// For a line that the verdict refuses.
pub fn mark_of_unverified(kind: RefusalKind) -> Mark {
    match kind {
        RefusalKind::WrongType
        | RefusalKind::Overflow
        | RefusalKind::ZeroDivisor
        | RefusalKind::MayBeMissing
        | RefusalKind::StoreRange => Mark::Operand,
        RefusalKind::Stack | RefusalKind::NoResult | RefusalKind::Code | RefusalKind::Jump => {
            Mark::Operator
        }
        RefusalKind::TagUnknown | RefusalKind::TagType | RefusalKind::TagAccess => Mark::Name,
        RefusalKind::OverBudget | RefusalKind::OutOfMemory => Mark::Line,
    }
}
