//! A core over events.
use crate::bytes::{bytes_of, hex_of, needed, number, pdu_of, registers_of};
use crate::fault::Shown;
use crate::link_bench::LinkBench;
use crate::page::Page;
use crate::sites::{machine, site};
use crate::texts::Texts;
use gateway::{Answer, Core, CoreFault, DEPTH, Event, WriteOrder, run_scan, serve_client};
use modbus_frame::{Words, request_pdu};
use register_map::Map;
use scan_vm::Machine;
use site_model::Want;
use std::alloc::Global;

/// A step of a core; devices, models and outputs are told by their numbers.
#[derive(Clone, Copy)]
pub(crate) enum CoreStep<'a> {
    /// A device answers the registers of a model.
    Block(usize, u16, &'a [&'a str]),
    /// It doesn't answer for one.
    Lost(usize, u16),
    /// So many milliseconds go by.
    Wait(u32),
    /// The program runs once.
    Scan,
    /// A client asks this.
    Client(&'a [&'a str]),
    /// A lost block and a scan have their answers in one list.
    Replay(usize, u16),
    /// What is written of an output.
    Write(usize),
    /// The most instructions that a scan takes, and how many the last one took.
    Budget,
    /// The request that sets the tag of a name to a number.
    Sets(&'a str, i64),
    /// A whole scan over the poller's link.
    RunScan,
    /// A client is served over the link.
    ServeClient,
}

impl<'a> CoreStep<'a> {
    /// The step that words say; None where it is none of a core.
    pub(crate) fn read(name: &str, words: &'a [&'a str]) -> Option<CoreStep<'a>> {
        match (name, words) {
            ("block", [device, model, words @ ..]) => Some(Self::Block(
                number(device)?,
                number(model)?,
                words,
            )),
            ("lost", [device, model]) => Some(Self::Lost(number(device)?, number(model)?)),
            ("wait", [elapsed]) => Some(Self::Wait(number(elapsed)?)),
            ("scan", []) => Some(Self::Scan),
            ("asks", pdu) => Some(Self::Client(pdu)),
            ("replay", [device, model]) => Some(Self::Replay(number(device)?, number(model)?)),
            ("write", [output]) => Some(Self::Write(number(output)?)),
            ("budget", []) => Some(Self::Budget),
            ("sets", [tag, value]) => Some(Self::Sets(*tag, number(value)?)),
            ("run-scan", []) => Some(Self::RunScan),
            ("serve-client", []) => Some(Self::ServeClient),
            _ => None,
        }
    }
}

/// A core.
#[derive(Drop)]
pub(crate) struct CoreBench {
    alloc: Global,
    core: Core<DEPTH>,
}

impl CoreBench {
    /// A core of a site whose devices have these maps, and a program that is accepted for another; or why there is none.
    pub(crate) fn new(
        alloc: Global,
        texts: &Texts<'_>,
        names: (&str, &str, &str),
        maps: Vec<Option<Map>>,
    ) -> Shown<Result<CoreBench, CoreFault>> {
        let (name, program, accepted) = names;
        let machine = machine_for(alloc, texts, accepted, program)?;
        let site = site(alloc, texts, name)?;
        if maps.len() != site.devices().len() {
            return needed(None);
        }
        match Core::new(alloc, site, machine, maps) {
            Ok(core) => Ok(Ok(CoreBench { alloc, core })),
            Err(fault) => Ok(Err(fault)),
        }
    }

    /// The core itself.
    pub(crate) fn core(&mut self) -> &mut Core<DEPTH> {
        &mut self.core
    }

    /// Takes a step, and tells what came of it.
    pub(crate) fn take(
        &mut self,
        links: &mut LinkBench,
        page: &mut Page,
        step: CoreStep<'_>,
    ) -> Shown<()> {
        match step {
            CoreStep::Block(device, model, words) => {
                let words = registers_of(self.alloc, words)?;
                let words = needed(Words::from_slice(&words))?;
                self.step(page, Event::Block(Want { device, model }, words))
            }
            CoreStep::Lost(device, model) => self.step(page, Event::Lost(Want { device, model })),
            CoreStep::Wait(elapsed) => self.step(page, Event::Time(elapsed)),
            CoreStep::Scan => self.step(page, Event::Scan),
            CoreStep::Client(pdu) => {
                let pdu = pdu_of(self.alloc, pdu)?;
                self.step(page, Event::Client(pdu))
            }
            CoreStep::Replay(device, model) => self.replay(page, Want { device, model }),
            CoreStep::Write(output) => self.tell_write(page, output),
            CoreStep::Budget => self.tell_budget(page),
            CoreStep::Sets(tag, number) => self.tell_request(page, tag, number),
            CoreStep::RunScan => self.run_scan(links, page),
            CoreStep::ServeClient => {
                let told = serve_client(&mut self.core, links.link()?);
                page.tell(format_args!("{told:?}"))
            }
        }
    }

    fn step(&mut self, page: &mut Page, event: Event) -> Shown<()> {
        let answer = self.core.step(event);
        self.tell_answer(page, &answer)
    }

    fn tell_answer(&self, page: &mut Page, answer: &Answer) -> Shown<()> {
        match answer {
            Answer::None => Ok(()),
            Answer::Writes(n) => page.tell(format_args!("{n} outputs")),
            Answer::Reply(pdu) => page.tell(hex_of(self.alloc, pdu.bytes())?),
        }
    }

    fn replay(&mut self, page: &mut Page, want: Want) -> Shown<()> {
        let mut answers = [Answer::Writes(0), Answer::None];
        self.core
            .replay(&[Event::Lost(want), Event::Scan], &mut answers);
        page.tell(format_args!("{answers:?}"))
    }

    fn tell_write(&mut self, page: &mut Page, output: usize) -> Shown<()> {
        if output >= self.core.site().outs().len() {
            return needed(None);
        }
        let write = self.core.write(output);
        page.tell(format_args!("{write:?}"))
    }

    fn tell_budget(&mut self, page: &mut Page) -> Shown<()> {
        let most = self.core.machine().verified().budget();
        page.tell(format_args!("{most} at most, {} taken", self.core.steps()))
    }

    fn tell_request(&mut self, page: &mut Page, tag: &str, number: i64) -> Shown<()> {
        let tag = needed(self.core.site().tag(tag))?;
        match self.core.request_to_set(tag, number) {
            Some(request) => page.tell(hex_of(self.alloc, request_pdu(&request).bytes())?),
            None => page.tell("nothing sets it so"),
        }
    }

    fn run_scan(&mut self, links: &mut LinkBench, page: &mut Page) -> Shown<()> {
        let mut order = WriteOrder::new();
        match run_scan(&mut self.core, links.poller()?, &mut order) {
            Ok(report) => page.tell(format_args!("{report:?}")),
            Err(fault) => {
                page.tell(fault)?;
                let counts = links.counts()?;
                let again = run_scan(&mut self.core, links.poller()?, &mut order);
                let stays = again == Err(fault) && links.counts()? == counts;
                page.tell(if stays { "it stays" } else { "it doesn't stay" })
            }
        }
    }
}

/// A machine for a program that is accepted for the site of a text.
fn machine_for(
    alloc: Global,
    texts: &Texts<'_>,
    site_name: &str,
    program: &str,
) -> Shown<Machine<DEPTH>> {
    let program = texts.get(program)?;
    let accepted = site(alloc, texts, site_name)?;
    machine(alloc, &accepted, program)
}
