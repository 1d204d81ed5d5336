//! A plant: simulated inverters and meters at their units.
ghost use Rattle.std.specs.Prelude.{◌≡◌, ◌≢◌, map, Ok, Err, IfOk, IfErr, OnOk, MatchResult};
ghost use Rattle.toml.specs.View.{view};
ghost use Rattle.std.specs.List.{list_all};
ghost use Rattle.inverter_sim.specs.File.{is_inverter, first_unit, first_pace, plant_of, StandsFor, Breaks};
ghost use Rattle.inverter_sim.specs.Parts.{IsAtFault, IsTreeFault};
ghost use Rattle.inverter_sim.specs.declared.part.PlantPart.TheVariants as parts;
ghost use Rattle.inverter_sim.specs.declared.fault.PlantFault.{PlantFault as FaultOfPlant};
ghost use Rattle.inverter_sim.specs.declared.fault.PlantFault.TheVariants as fault;
ghost use Rattle.inverter_sim.specs.Tick.{ticked, devices_ticked, all_ticked};
ghost use Rattle.inverter_sim.specs.Serve.{after_among, reply_among, after_serving, reply_of, delay_among, delay_of};

use crate::device::Device;
use crate::fault::PlantFault;
use crate::metering::meter_all;
use crate::misbehaviour::Fault;
use crate::part::PlantPart;
use crate::reader::{devices_of, faults_of, too_long};
use file_keys::{Placed, TomlFile};
use modbus_frame::{Exception, Pdu, exception_pdu};
use model_defs::ModelDef;
use std::alloc::Global;
use std::marker::Model;
use toml::Value;

/// A simulated plant of inverters and meters.
///
/// A contract sees its devices, its faults, how many frames it was sent, and the unit whose requests tick it.
#[derive(Debug, Drop)]
pub struct Plant {
    pub(crate) devices: Vec<Device>,
    pub(crate) faults: Vec<Fault>,
    pub(crate) frames: u32,
    pub(crate) pace: Option<u8>,
}

impl Model for Plant {
    ghost use Rattle.std.specs.Prelude.{◌≤◌};
    ghost use Rattle.inverter_sim.specs.State.{PlantState};

    ghost Value = { PlantState };

    ghost view = { λ p. record { devices = p.devices.items; faults = p.faults.items; frames = p.frames; pace = p.pace } };

    ghost invariant = { λ p. p.frames ≤ 1000001 };
}

impl Plant {
    /// Reads a plant file: `[[device]]` with `unit`, `models` (1 first), `wmax`, `available` (watts, one number for each
    /// tick), optional `ramp` (watts), `base` (40000 where it is missing) and `slow` (milliseconds, 0 where it is missing),
    /// or with `kind = "meter"`, `unit`, `models` (one of 201 to 204 among them), `load` (watts likewise), `behind` (units of
    /// inverters before it), `base` and `slow`; `[[device.value]]` with `model`, `point` and `raw`, the number in a point's
    /// registers; `[[fault]]` with `request` and `kind`: `exception` with `code`, `stale` with `count`, `garbage` with `word`,
    /// `length`, `cut` with `bytes`. Other keys aren't looked at. Registers without a value are unimplemented. Of two
    /// definitions with one id the last one counts.
    ///
    /// The first rule that the file breaks is the fault: the numbers of devices, models, watts and units anywhere in the
    /// file; then each device by its kind, keys, models, ranges and duplicates, and its values one by one in the same way;
    /// then the number of faults, and the faults one by one. A unit is in 0..255, a base in 0..65534, `wmax`,
    /// `available`, `ramp` and `load` are in 0..1,000,000, `slow` is in 0..60,000, `request` in 1..1,000,000, `code` in
    /// 1..255, `count` in 1..100, `word` in 0..65535 and `bytes` in 0..259. There are at most 64 devices, 16 models, 1,024
    /// watts and 64 units of each, and 256 faults.
    pub fn read(alloc: Global, toml: &str, defs: &[ModelDef]) -> Result<Plant, PlantFault>
        ensures ok { IfOk result (StandsFor defs.now toml.now) }
        ensures unbroken { OnOk result ((e : FaultOfPlant) → ¬ Breaks defs.now toml.now e) }
        ensures refused { IfErr result (λ e. e ≢ fault.OutOfMemory → Breaks defs.now toml.now e) }
    {
        let file = TomlFile::parse(alloc, toml)?;
        let mut part = PlantPart::File;
        read_to(alloc, &file, defs, &mut part)
    }

    /// The same of a file that is parsed; the fault, which is that of [`Plant::read`], has the part of the file that breaks
    /// the rule.
    pub fn read_file(
        alloc: Global,
        file: &TomlFile<'_>,
        defs: &[ModelDef],
    ) -> Result<Plant, Placed<PlantFault, PlantPart>>
        ensures ok { IfOk result (StandsFor defs.now file.now) }
        ensures unbroken { OnOk result ((e : FaultOfPlant) → ¬ Breaks defs.now file.now e) }
        ensures refused { IfErr result (λ p. p.fault ≢ fault.OutOfMemory → Breaks defs.now file.now p.fault) }
        ensures placed { IfErr result (λ p. p.fault ≢ fault.OutOfMemory → IsAtFault defs.now file.now p.part p.fault) }
    {
        let mut part = PlantPart::File;
        match read_to(alloc, file, defs, &mut part) {
            Ok(plant) => Ok(plant),
            Err(fault) => Err(Placed { fault, part }),
        }
    }

    /// One step of time: each inverter produces the watts that its controls allow of those that are available now, shows
    /// them in W by W_SF, rounded down, and its state in St (SunSpec inverter models 101 to 103; 123, immediate controls).
    /// Then each meter shows its load of now less the watts of its inverters in W by W_SF, rounded down (SunSpec meter
    /// models 201 to 204).
    pub fn tick(&mut self)
        ensures { self.new ≡ all_ticked self.old }
    {
        tick_devices(&mut self.devices);
    }

    /// Answers a PDU for a unit, and does what it asks for: registers from the device's mark to its end model are read,
    /// and whole points that clients may write are written, all of a request or none. Exceptions: 0B where no device
    /// has the unit, 01 and 03 for what is no request, 02 for registers that the device lacks or that can't be written
    /// (Modbus Application Protocol V1.1b3, section 7). It doesn't tick.
    pub fn serve(&mut self, unit: u8, pdu: &Pdu) -> Pdu
        ensures after { self.new ≡ after_serving self.old unit pdu.now }
        ensures reply { result ≡ reply_of self.old unit pdu.now }
    {
        serve_among(&mut self.devices, unit, pdu)
    }

    /// How many milliseconds late the device of a unit answers where time goes by: its `slow`, and 0 where no device has
    /// the unit. Nothing here waits; whoever serves the plant on a port does.
    pub fn delay_of(&self, unit: u8) -> u32
        ensures { result ≡ delay_of self.now unit }
    {
        delay_among(&self.devices, unit)
    }
}

/// Reads a plant file, and notes the part that it has come to.
fn read_to(
    alloc: Global,
    file: &TomlFile<'_>,
    defs: &[ModelDef],
    part: &mut PlantPart,
) -> Result<Plant, PlantFault>
    requires { part.old ≡ parts.File }
    ensures ok { IfOk result (StandsFor defs.now file.now) }
    ensures unbroken { OnOk result ((e : FaultOfPlant) → ¬ Breaks defs.now file.now e) }
    ensures refused { IfErr result (λ e. e ≢ fault.OutOfMemory → Breaks defs.now file.now e) }
    ensures placed { IfErr result (λ e. e ≢ fault.OutOfMemory → IsAtFault defs.now file.now part.new e) }
{
    match file.tree() {
        Ok(tree) => read_tree(alloc, tree, defs, part),
        Err(_) => Err(PlantFault::NotToml),
    }
}

fn read_tree(
    alloc: Global,
    tree: &Value,
    defs: &[ModelDef],
    part: &mut PlantPart,
) -> Result<Plant, PlantFault>
    ensures read { MatchResult result (λ p. plant_of defs.now (view tree.now) ≡ Ok p)
        (λ e. e ≢ fault.OutOfMemory → plant_of defs.now (view tree.now) ≡ Err e) }
    ensures placed { IfErr result (λ e. e ≢ fault.OutOfMemory → IsTreeFault defs.now (view tree.now) part.new e) }
{
    if let Some(found) = too_long(tree) {
        *part = found;
        return Err(PlantFault::TooMany);
    }
    let devices = devices_of(alloc, tree, defs, part)?;
    let faults = faults_of(alloc, tree, part)?;
    let pace = first_pace(&devices);
    Ok(Plant {
        devices,
        faults,
        frames: 0,
        pace,
    })
}

// In a plant without a meter the first device's requests tick it.
fn first_pace(devices: &[Device]) -> Option<u8>
    ensures { result ≡ first_pace devices.now }
{
    if are_inverters(devices) {
        first_unit(devices)
    } else {
        None
    }
}

fn are_inverters(devices: &[Device]) -> bool
    ensures { result ≡ list_all (λ d. is_inverter d.works) devices.now }
{
    for device in devices {
        if !device.works.is_inverter() {
            return false;
        }
    }
    true
}

fn first_unit(devices: &[Device]) -> Option<u8>
    ensures { result ≡ first_unit devices.now }
{
    match devices {
        [device, ..] => Some(device.unit()),
        [] => None,
    }
}

fn tick_devices(devices: &mut [Device])
    ensures { devices.new ≡ devices_ticked devices.old }
{
    tick_all(devices);
    meter_all(devices);
}

fn tick_all(devices: &mut [Device])
    ensures { devices.new ≡ map ticked devices.old }
{
    for device in devices.iter_mut() {
        device.tick();
    }
}

// How late the device of the unit answers.
fn delay_among(devices: &[Device], unit: u8) -> u32
    ensures { result ≡ delay_among devices.now unit }
{
    for device in devices {
        if device.unit() == unit {
            return device.slow;
        }
    }
    0
}

// The device of the unit is asked.
fn serve_among(devices: &mut [Device], unit: u8, pdu: &Pdu) -> Pdu
    ensures after { devices.new ≡ after_among devices.old unit pdu.now }
    ensures reply { result ≡ reply_among devices.old unit pdu.now }
{
    for device in devices.iter_mut() {
        if device.unit() == unit {
            return device.serve(pdu);
        }
    }
    exception_pdu(pdu, Exception::GATEWAY_TARGET_FAILED)
}
