//! What has come to an instruction from earlier ones.

/// What has come to an instruction from earlier ones: nothing, what is known, or facts that don't meet.
#[derive(Drop)]
pub enum Arrived<F> {
    Nothing,
    AbstractValue(F),
    Clash,
}
