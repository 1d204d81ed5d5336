//! A plant of simulated inverters by itself.
use crate::bytes::{hex_of, number, pdu_of};
use crate::fault::Shown;
use crate::link_bench::LinkBench;
use crate::page::Page;
use inverter_sim::{Plant, serve_link};
use std::alloc::Global;

/// A step of a plant.
#[derive(Clone, Copy)]
pub(crate) enum PlantStep<'a> {
    /// A unit is asked, and answers.
    Unit(u8, &'a [&'a str]),
    /// Time passes for its inverters.
    Tick,
    /// The requests that come over the link are answered.
    Serve,
}

impl<'a> PlantStep<'a> {
    /// The step that words say; None where it is none of a plant.
    pub(crate) fn read(name: &str, words: &'a [&'a str]) -> Option<PlantStep<'a>> {
        match (name, words) {
            ("unit", [unit, pdu @ ..]) => Some(Self::Unit(number(unit)?, pdu)),
            ("tick", []) => Some(Self::Tick),
            ("serve-plant", []) => Some(Self::Serve),
            _ => None,
        }
    }

    /// Takes the step with a plant, and tells what came of it.
    pub(crate) fn take(
        self,
        alloc: Global,
        plant: &mut Plant,
        links: &mut LinkBench,
        page: &mut Page,
    ) -> Shown<()> {
        match self {
            PlantStep::Unit(unit, pdu) => {
                let answer = plant.serve(unit, &pdu_of(alloc, pdu)?);
                page.tell(hex_of(alloc, answer.bytes())?)
            }
            PlantStep::Tick => {
                plant.tick();
                Ok(())
            }
            PlantStep::Serve => {
                let told = serve_link(links.link()?, plant);
                page.tell(format_args!("{told:?}"))
            }
        }
    }
}
