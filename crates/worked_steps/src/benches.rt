//! What a case works on, and which of these takes a step.
use crate::bytes::needed;
use crate::core_bench::{CoreBench, CoreStep};
use crate::fault::Shown;
use crate::link_bench::{LinkBench, LinkStep};
use crate::page::Page;
use crate::plant_bench::PlantStep;
use crate::register_bench::{RegisterBench, RegisterStep};
use crate::service_bench::ServiceBench;
use crate::service_step::ServiceStep;
use crate::sites::{plant, site};
use crate::stream_bench::StreamBench;
use crate::stream_step::StreamStep;
use crate::text_bench::TextStep;
use crate::texts::Texts;
use inverter_sim::Plant;
use register_map::Map;
use std::alloc::Global;

/// What a case works on.
#[derive(Drop)]
pub(crate) struct Benches {
    alloc: Global,
    /// The number of the case.
    number: usize,
    streams: StreamBench,
    registers: RegisterBench,
    links: LinkBench,
    plant: Option<Plant>,
    /// The maps that were found, for the next core.
    maps: Option<Vec<Option<Map>>>,
    core: Option<Box<CoreBench>>,
    service: Option<Box<ServiceBench>>,
    /// Steps that wait to be taken in another order, where such wait.
    shuffled: Option<Vec<String>>,
}

impl Benches {
    pub(crate) fn new(alloc: Global, number: usize) -> Benches {
        Benches {
            alloc,
            number,
            streams: StreamBench::new(alloc),
            registers: RegisterBench::new(alloc),
            links: LinkBench::new(alloc),
            plant: None,
            maps: None,
            core: None,
            service: None,
            shuffled: None,
        }
    }

    /// Takes a step, or keeps it where steps wait.
    pub(crate) fn take(&mut self, texts: &Texts<'_>, page: &mut Page, step: &str) -> Shown<()> {
        match (step, &mut self.shuffled) {
            ("end-of-order", _) => self.take_shuffled(texts),
            (_, Some(waiting)) => Ok(waiting.push(step.to_string(self.alloc)?)?),
            ("in-each-order", None) => {
                self.shuffled = Some(Vec::new(self.alloc));
                Ok(())
            }
            (_, None) => self.take_now(texts, page, step),
        }
    }

    /// Takes the steps that wait in the order of the case's number, and shows nothing of them.
    fn take_shuffled(&mut self, texts: &Texts<'_>) -> Shown<()> {
        let mut waiting = needed(self.shuffled.take())?;
        let mut page = Page::new(self.alloc, true);
        let mut rest = self.number;
        for _ in 0..waiting.len() {
            let left = waiting.len();
            if left == 0 {
                break;
            }
            let step = waiting.remove(rest % left);
            rest /= left;
            self.take_now(texts, &mut page, step.as_str())?;
        }
        Ok(())
    }

    /// Takes a step, with the case's number in place of each word `N`.
    fn take_now(&mut self, texts: &Texts<'_>, page: &mut Page, step: &str) -> Shown<()> {
        let number = format!(in self.alloc; "{}", self.number)?;
        let mut words = Vec::new(self.alloc);
        for word in step.split_ascii_whitespace() {
            words.push(if word == "N" { number.as_str() } else { word })?;
        }
        match words.as_slice() {
            [name, args @ ..] => self.take_words(texts, page, *name, args),
            [] => needed(None),
        }
    }

    fn take_words(
        &mut self,
        texts: &Texts<'_>,
        page: &mut Page,
        name: &str,
        args: &[&str],
    ) -> Shown<()> {
        if let Some(step) = ServiceStep::read(name, args) {
            return needed(self.service.as_mut())?.take(texts, page, step);
        }
        if let Some(step) = CoreStep::read(name, args) {
            return needed(self.core.as_mut())?.take(&mut self.links, page, step);
        }
        if let Some(step) = PlantStep::read(name, args) {
            return step.take(
                self.alloc,
                needed(self.plant.as_mut())?,
                &mut self.links,
                page,
            );
        }
        if let Some(step) = LinkStep::read(name, args) {
            return self.links.take(texts, page, step);
        }
        if let Some(step) = StreamStep::read(name, args) {
            return self.streams.take(page, step);
        }
        if let Some(step) = RegisterStep::read(name, args) {
            return self.registers.take(page, step);
        }
        if let Some(step) = TextStep::read(name, args) {
            return step.tell(self.alloc, texts, page);
        }
        self.begin(texts, page, name, args)
    }

    /// Begins what a case works on.
    fn begin(
        &mut self,
        texts: &Texts<'_>,
        page: &mut Page,
        name: &str,
        args: &[&str],
    ) -> Shown<()> {
        match (name, args) {
            ("service", [clients, plants @ ..]) => self.begin_service(texts, *clients, plants),
            ("core", [site, program]) => self.begin_core(texts, page, (*site, *program, *site)),
            ("core", [site, program, "accepted-for", other]) => {
                self.begin_core(texts, page, (*site, *program, *other))
            }
            ("compare", []) => {
                let core = needed(self.core.as_mut())?.core();
                needed(self.service.as_mut())?.compare(page, core)
            }
            ("plant", [name]) => {
                self.plant = Some(plant(self.alloc, texts, *name)?);
                Ok(())
            }
            ("find", [name]) => {
                let site = site(self.alloc, texts, *name)?;
                self.maps = Some(self.links.find(page, &site)?);
                Ok(())
            }
            _ => needed(None),
        }
    }

    fn begin_service(&mut self, texts: &Texts<'_>, clients: &str, plants: &[&str]) -> Shown<()> {
        let clients = needed(clients.parse::<usize>().ok())?;
        let bench = ServiceBench::new(self.alloc, texts, clients, plants)?;
        self.service = Some(Box::new(self.alloc, bench)?);
        Ok(())
    }

    /// A core with the maps that were found, or else those that the registers hold of each device.
    fn begin_core(
        &mut self,
        texts: &Texts<'_>,
        page: &mut Page,
        names: (&str, &str, &str),
    ) -> Shown<()> {
        let maps = match self.maps.take() {
            Some(maps) => maps,
            None => self.maps_of(site(self.alloc, texts, names.0)?.devices().len())?,
        };
        match CoreBench::new(self.alloc, texts, names, maps)? {
            Ok(bench) => {
                self.core = Some(Box::new(self.alloc, bench)?);
                Ok(())
            }
            Err(fault) => page.tell(format_args!("{fault:?}")),
        }
    }

    fn maps_of(&self, devices: usize) -> Shown<Vec<Option<Map>>> {
        let mut maps = Vec::new(self.alloc);
        for _ in 0..devices {
            maps.push(self.registers.map()?)?;
        }
        Ok(maps)
    }
}
