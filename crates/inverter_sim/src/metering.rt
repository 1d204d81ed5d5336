//! A tick of a meter: the watts that are drawn from the grid, and its phases.
ghost use Rattle.std.specs.Prelude.{◌≡◌, ◌≤◌, ◌<◌, ◌==◌, ◌^◌, ◌≤ℤ◌, neg_ℤ, pos, map, length, slice_get, Some};
ghost use Rattle.std.specs.List.{list_any};
ghost use Rattle.inverter_sim.specs.State.{DeviceState};
ghost use Rattle.inverter_sim.specs.Tick.{produced_as, produced_for, produced_by, produced_behind, drawn, drawn_word, int16_word, scaled_drawn, flow_shown, meter_shown, metered_as, metered};

use crate::device::Device;
use crate::points::FlowPoints;
use crate::tick::{ONE, UNIMPLEMENTED, power_at, set_at};
use crate::works::{Meter, Works};

/// The meters of a plant show what is drawn from the grid, when its inverters have ticked.
pub(crate) fn meter_all(devices: &mut [Device])
    ensures { devices.new ≡ map (metered devices.old) devices.old }
{
    for index in 0..devices.len() {
        let produced = produced_at(devices, index);
        devices[index].meter(produced);
    }
}

// The watts of the inverters that the device of that number measures.
fn produced_at(devices: &[Device], index: usize) -> u128
    requires { index < length devices.now }
    ensures watts { (d : DeviceState) → slice_get devices.now index ≡ Some d → result ≡ produced_behind d.works devices.now }
    ensures limited { result ≤ 2 ^ 84 }
{
    devices[index].produced_behind(devices)
}

// The watts that the devices of these units have produced since their last tick.
fn produced_by(units: &[u8], devices: &[Device]) -> u128
    ensures sum { result ≡ produced_by units.now devices.now }
    ensures limited { result ≤ 2 ^ 84 }
{
    let mut sum: u128 = 0;
    for device in devices {
        sum += device.produced_for(units) as u128;
    }
    sum
}

fn is_among(units: &[u8], unit: u8) -> bool
    ensures { result ≡ list_any (λ other. other == unit) units.now }
{
    for other in units {
        if *other == unit {
            return true;
        }
    }
    false
}

impl Device {
    // The watts that it has produced since its last tick, where its unit is one of these.
    fn produced_for(&self, units: &[u8]) -> u32
        ensures watts { result ≡ produced_for units.now self.now }
        ensures limited { result ≤ 1000000 }
    {
        if is_among(units, self.unit) {
            self.produced()
        } else {
            0
        }
    }

    fn produced(&self) -> u32
        ensures watts { result ≡ produced_as self.now.works }
        ensures limited { result ≤ 1000000 }
    {
        match &self.works {
            Works::Inverter(inverter) => inverter.produced.number(),
            Works::Meter(_) => 0,
        }
    }

    // The watts of the inverters that a meter measures.
    fn produced_behind(&self, devices: &[Device]) -> u128
        ensures watts { result ≡ produced_behind self.now.works devices.now }
        ensures limited { result ≤ 2 ^ 84 }
    {
        match &self.works {
            Works::Inverter(_) => 0,
            Works::Meter(meter) => produced_by(meter.behind.as_slice(), devices),
        }
    }

    // A meter shows the load less what its inverters produce, and its phases show equal parts of that; the next tick has
    // the next load. An inverter stays as it is.
    fn meter(&mut self, produced: u128)
        requires { produced ≤ 2 ^ 84 }
        ensures { self.new ≡ metered_as self.old.works produced self.old }
    {
        match &mut self.works {
            Works::Inverter(_) => {}
            Works::Meter(meter) => {
                meter.show(&mut self.registers, produced);
                meter.load.go_on();
            }
        }
    }
}

impl Meter {
    // Shows the whole, and an equal part of it in each phase.
    fn show(&self, registers: &mut Vec<u16>, produced: u128)
        requires { produced ≤ 2 ^ 84 }
        ensures shown { registers.new.items ≡ meter_shown registers.old.items produced self.now }
        ensures len { length registers.new.items ≡ length registers.old.items }
    {
        let parts = self.points.phases.number();
        let watts = self.drawn_word(registers, produced, 1);
        let current = self.current_word(registers, produced, 1);
        let phase_watts = self.drawn_word(registers, produced, parts);
        let phase_current = self.current_word(registers, produced, parts);
        let points = &self.points;
        points.whole.show(registers, watts, current);
        points.phase_a.show(registers, phase_watts, phase_current);
        points.phase_b.show(registers, phase_watts, phase_current);
        points.phase_c.show(registers, phase_watts, phase_current);
    }

    // What W shows, or the watts of a phase, which are one of so many parts.
    fn drawn_word(&self, registers: &[u16], produced: u128, parts: u32) -> u16
        requires produced { produced ≤ 2 ^ 84 }
        requires some { 0 < parts }
        requires few { parts ≤ 3 }
        ensures { result ≡ drawn_word parts registers.now produced self.now }
    {
        match power_at(registers, self.points.watts_scale) {
            Some(power) => scaled_drawn(self.drawn(produced), parts as u128 * power),
            None => UNIMPLEMENTED,
        }
    }

    // The watts that are drawn from the grid; less than 0 where watts are fed into it.
    pub(crate) fn drawn(&self, produced: u128) -> i128
        requires { produced ≤ 2 ^ 84 }
        ensures watts { result ≡ drawn produced self.now }
        ensures low { neg_ℤ (pos (2 ^ 84)) ≤ℤ result }
        ensures high { result ≤ℤ pos (2 ^ 84) }
    {
        self.load.present() as i128 - produced as i128
    }
}

impl FlowPoints {
    // Sets the registers.
    fn show(&self, registers: &mut Vec<u16>, watts: u16, current: u16)
        ensures shown { registers.new.items ≡ flow_shown watts current self.now registers.old.items }
        ensures len { length registers.new.items ≡ length registers.old.items }
    {
        set_at(registers, self.watts, watts);
        set_at(registers, self.current, current);
    }
}

// watts / 10^sf, rounded down; the power stands for 10^sf, or for so many parts times that.
fn scaled_drawn(watts: i128, power: u128) -> u16
    requires low { neg_ℤ (pos (2 ^ 84)) ≤ℤ watts }
    requires high { watts ≤ℤ pos (2 ^ 84) }
    requires positive { 0 < power }
    requires bound { power ≤ 10 ^ 21 }
    ensures { result ≡ scaled_drawn watts power }
{
    int16_word((watts * ONE as i128).div_euclid(power as i128))
}

// The word of an int16; the unimplemented one where the number is none of its numbers.
fn int16_word(number: i128) -> u16
    ensures { result ≡ int16_word number }
{
    if -32767 <= number && number <= 32767 {
        number.rem_euclid(65536) as u16
    } else {
        UNIMPLEMENTED
    }
}
