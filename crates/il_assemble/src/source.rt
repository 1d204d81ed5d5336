//! Where an operand's value comes from, and where one is stored.
use point_types::IlType;

/// Where an operand's value comes from: the variable or tag at a place, or a literal with its type.
#[derive(Clone, Copy)]
pub(crate) enum Source {
    Variable(u16),
    Input(u16),
    Presence(u16),
    Constant(IlType, i64),
}

/// Where a value is stored: the variable or tag at a place.
#[derive(Clone, Copy)]
pub(crate) enum Place {
    Variable(u16),
    Output(u16),
}
