//! From a case to a service and the plants at the other ends of its links.
use crate::fault::{Played, RoofFault};
use crate::roof::{LinkText, Roof};
use gateway::DEPTH;
use il_assemble::assemble;
use inverter_sim::Plant;
use model_defs::{ModelDef, shipped_models};
use scan_vm::Machine;
use service::{Limits, Service, Station};
use service_texts::limits;
use site_model::Site;
use std::alloc::Global;
use verifier::verify::verify;

const SITE: &str = "[gateway]\nunit = 1\nbase = 40000\nmodels = [1]\n";

const NUMBER: &str = "type = \"DINT\"\nexponent = 0\nlow = -100000\nhigh = 100000\n";

const LIMIT: &str =
    "model = 123\npoint = \"WMaxLimPct\"\ntype = \"INT\"\nexponent = 0\nlow = 0\nhigh = 100\n";

const SWITCH: &str =
    "model = 123\npoint = \"WMaxLim_Ena\"\ntype = \"BOOL\"\nexponent = 0\nlow = 0\nhigh = 1\n";

const DEVICE: &str = "models = [1, 103, 123]\nwmax = 5000\navailable = [4000]\n";

const VALUES: &str =
    "value = [{ model = 103, point = \"W\", raw = 3000 }, { model = 103, point = \"W_SF\", raw = 0 }, { model = 123, point = \"WMaxLimPct_SF\", raw = 0 }]\n";

/// The shipped definitions.
pub(crate) fn definitions(alloc: Global) -> Played<Vec<ModelDef>> {
    let mut models = Vec::new(alloc);
    for (_, text) in shipped_models() {
        models.push(fine(model_defs::read(alloc, text.as_bytes()).ok())?)?;
    }
    Ok(models)
}

/// The times of a case. No client comes.
pub(crate) fn limits_of(roof: &Roof<'_>) -> Limits {
    limits(roof.period, roof.timeout, 0)
}

/// A service of a case, from time 0 on. Its devices are the units in the order of the links.
pub(crate) fn service(
    alloc: Global,
    roof: &Roof<'_>,
    models: &[ModelDef],
    limits: Limits,
) -> Played<Service> {
    let mut texts = RoofTexts::new(alloc)?;
    for (link, text) in roof.links.iter().enumerate() {
        texts.add_link(link, text)?;
    }
    let machine_text = texts.program()?;
    let site = fine(Site::read(alloc, texts.site.as_str(), models).ok())?;
    let machine = machine(alloc, &site, machine_text.as_str())?;
    let stations = texts.stations.as_slice();
    let links = roof.links.len();
    fine(Service::new(alloc, site, machine, links, stations, &[], &[], limits, 0).ok())
}

/// The plant at the other end of a link.
pub(crate) fn plant(alloc: Global, text: &LinkText, models: &[ModelDef]) -> Played<Plant> {
    let mut plant = String::new(alloc);
    for number in 0..text.units.len() {
        let unit = number.saturating_add(1);
        write!(plant, "[[device]]\nunit = {unit}\n{DEVICE}{VALUES}")?;
    }
    fine(Plant::read(alloc, plant.as_str(), models).ok())
}

/// The texts of a site while they are written.
#[derive(Drop)]
struct RoofTexts {
    alloc: Global,
    site: String,
    names: String,
    lines: String,
    stations: Vec<Station>,
}

impl RoofTexts {
    fn new(alloc: Global) -> Played<RoofTexts> {
        Ok(RoofTexts {
            alloc,
            site: String::from_str(alloc, SITE)?,
            names: String::new(alloc),
            lines: String::new(alloc),
            stations: Vec::new(alloc),
        })
    }

    fn add_link(&mut self, link: usize, text: &LinkText) -> Played<()> {
        for number in 0..text.units.len() {
            let unit = u8::try_from(number.saturating_add(1)).unwrap_or(u8::MAX);
            self.stations.push(Station { link, unit })?;
            self.add_device(text)?;
        }
        Ok(())
    }

    /// Adds the device of the last station, and its tags.
    fn add_device(&mut self, text: &LinkText) -> Played<()> {
        let n = self.stations.len();
        write!(self.site, "[[device]]\nname = \"d{n}\"\nunit = {n}\n")?;
        if text.reads > 1 {
            let point = "model = 103\npoint = \"W\"\n";
            write!(self.site, "[[tag]]\nname = \"w{n}\"\naccess = \"in\"\n")?;
            write!(self.site, "device = \"d{n}\"\n{point}{NUMBER}")?;
        }
        self.add_output("lim", LIMIT, "50", "INT")?;
        if text.outputs > 1 {
            self.add_output("ena", SWITCH, "TRUE", "BOOL")?;
        }
        Ok(())
    }

    /// Adds an output of the last device, to which the program writes this.
    fn add_output(&mut self, name: &str, point: &str, value: &str, kind: &str) -> Played<()> {
        let n = self.stations.len();
        write!(
            self.site,
            "[[tag]]\nname = \"{name}{n}\"\naccess = \"out\"\n"
        )?;
        write!(self.site, "device = \"d{n}\"\n{point}")?;
        write!(self.names, "  {name}{n} : {kind};\n")?;
        write!(self.lines, "  LD {value}\n  ST {name}{n}\n")?;
        Ok(())
    }

    fn program(&self) -> Played<String> {
        let names = self.names.as_str();
        let lines = self.lines.as_str();
        Ok(format!(in self.alloc;
            "PROGRAM roof\nVAR_EXTERNAL\n{names}END_VAR\n{lines}END_PROGRAM\n"
        )?)
    }
}

/// A machine for a program that is accepted for a site.
fn machine(alloc: Global, site: &Site, program: &str) -> Played<Machine<DEPTH>> {
    let program = fine(il_reader::read(alloc, program).ok())?;
    let image = fine(assemble(alloc, &program).ok())?;
    let verified = fine(verify(alloc, image, site).ok())?;
    Ok(Machine::new(alloc, verified)?)
}

/// What a site needs, where it is fine.
fn fine<T>(made: Option<T>) -> Played<T> {
    match made {
        Some(made) => Ok(made),
        None => Err(RoofFault::Site),
    }
}
