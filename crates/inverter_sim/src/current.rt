//! The currents that a meter shows.
ghost use Rattle.std.specs.Prelude.{◌≡◌, ◌≤◌, ◌<◌, ◌*◌, ◌/◌, ◌^◌, IfSome};
ghost use Rattle.inverter_sim.specs.Tick.{one, above_zero, voltage_at, scaled_current, current_word};

use crate::points::MeterPoints;
use crate::tick::{ONE, UNIMPLEMENTED, power_at, word_at};
use crate::works::Meter;

// The greatest number that an int16 shows.
const MOST_CURRENT: u128 = 32767;

// The most watts of which a current is shown; no plant has more.
const MOST_DRAWN: u128 = 1_000_000_000_000_000_000;

impl Meter {
    /// What A shows, or the current of a phase, which is one of so many parts.
    pub(crate) fn current_word(&self, registers: &[u16], produced: u128, parts: u32) -> u16
        requires produced { produced ≤ 2 ^ 84 }
        requires some { 0 < parts }
        requires few { parts ≤ 3 }
        ensures { result ≡ current_word parts registers.now produced self.now }
    {
        let watts = self.drawn(produced).unsigned_abs();
        let Some(voltage) = self.points.voltage_in(registers) else {
            return UNIMPLEMENTED;
        };
        match power_at(registers, self.points.current_scale) {
            Some(power) => scaled_current(watts, parts as u128 * voltage, power),
            None => UNIMPLEMENTED,
        }
    }
}

impl MeterPoints {
    // The voltage, of which 10^10 are a volt.
    fn voltage_in(&self, registers: &[u16]) -> Option<u128>
        ensures voltage { result ≡ voltage_at registers.now self.now }
        ensures positive { IfSome result (λ v. 0 < v) }
        ensures bound { IfSome result (λ v. v ≤ 32767 * 10 ^ 20) }
    {
        let raw = above_zero(word_at(registers, self.voltage)?)?;
        let power = power_at(registers, self.voltage_scale)?;
        Some(raw as u128 * power)
    }
}

// The number of an int16, where it is above 0.
fn above_zero(word: u16) -> Option<u16>
    ensures number { result ≡ above_zero word }
    ensures positive { IfSome result (λ n. 0 < n) }
    ensures bound { IfSome result (λ n. n ≤ 32767) }
{
    if 0 < word && word <= 32767 {
        Some(word)
    } else {
        None
    }
}

// watts / voltage / 10^sf, rounded down, where an int16 holds it.
fn scaled_current(watts: u128, voltage: u128, power: u128) -> u16
    requires voltage { 0 < voltage }
    requires power { 0 < power }
    ensures { result ≡ scaled_current watts voltage power }
{
    if watts > MOST_DRAWN {
        return UNIMPLEMENTED;
    }
    let number = current_of(watts, voltage, power);
    if number <= MOST_CURRENT {
        number as u16
    } else {
        UNIMPLEMENTED
    }
}

// watts / voltage / 10^sf, rounded down.
fn current_of(watts: u128, voltage: u128, power: u128) -> u128
    requires watts { watts ≤ 10 ^ 18 }
    requires voltage { 0 < voltage }
    requires power { 0 < power }
    ensures { result ≡ watts * one * one / (voltage * power) }
{
    watts * ONE * ONE / voltage / power
}
