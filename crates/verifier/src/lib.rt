//! The judgement of a program against the tags of a site ([`verify`]): when it is accepted, and that a
//! program that is accepted never goes wrong ([`laws`]); and what is known before each instruction, to be told
//! ([`known`], [`told`]). Of the judgement's parts, [`links`] finds the
//! site's tags, [`listing`] the instructions, [`pass`] what is known before each of them ([`Fact`] by
//! [`flow`]), and [`budget`] the greatest number of steps.
//!
//! [`Fact`]: fact::Fact
#![tactic(auto)]

pub mod arrived;
pub mod budget;
pub mod fact_domain;
mod heads;
pub mod known;
pub mod laws;
pub mod listing;
pub mod pass;
pub mod refused;
pub mod tag_link;
pub mod told;
pub mod verified;
pub mod verify;

pub use facts::{
    Refusal, RefusalKind, RefusedAt, abstract_value, changed_spans, context, fact, operand,
    present_inputs, refusal, span,
};
pub use refused::Refused;
pub use tag_link::{TagLink, links};
pub use verified::Verified;
