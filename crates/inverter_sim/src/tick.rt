//! A tick of an inverter: the watts that it produces, as its controls allow, and its state.
ghost use Rattle.std.specs.Prelude.{◌≡◌, ◌≤◌, ◌<◌, ◌^◌, ◌*◌, ◌/◌, min, drop, length, take, Some, None, IfSome, option_map, map};
ghost use Rattle.point_types.specs.Reading.{factor_of};
ghost use Rattle.inverter_sim.specs.Tick.{word_at, implemented, number_at, is_number, power_of, power_in, power_at, power_by, one, percent_of, scaled_watts, limit_of, wanted_of, stepped, watts_of, watts_word, state_word, set_at, is_off, is_limited, gone_on, shown, ticked, present};

use crate::device::Device;
use crate::points::Scale;
use crate::watts::Watts;
use crate::works::{Inverter, Works};
use point_types::{Kind, value};

// 10^10, which stands for the factor 0.
pub(crate) const ONE: u128 = 10_000_000_000;

// The greatest number that W, an int16, shows.
const MOST_WATTS: u128 = 32767;

pub(crate) const UNIMPLEMENTED: u16 = 0x8000;

// The state of an inverter (SunSpec models 101 to 103, St).
const OFF: u16 = 1;

const SLEEPING: u16 = 2;

const MPPT: u16 = 4;

const THROTTLED: u16 = 5;

impl Device {
    /// Sets the watts that an inverter produces now, and its state; the next tick has the next watts available. A meter
    /// stays as it is.
    pub(crate) fn tick(&mut self)
        ensures { self.new ≡ ticked self.old }
    {
        match &mut self.works {
            Works::Inverter(inverter) => inverter.tick(&mut self.registers),
            Works::Meter(_) => {}
        }
    }
}

impl Inverter {
    fn tick(&mut self, registers: &mut Vec<u16>)
        ensures after { self.new ≡ gone_on registers.old.items self.old }
        ensures shown { registers.new.items ≡ shown registers.old.items self.old }
        ensures len { length registers.new.items ≡ length registers.old.items }
    {
        let watts = self.watts_word(registers);
        let state = self.state_word(registers);
        self.produced = Watts::new(self.watts(registers));
        self.available.go_on();
        set_at(registers, self.points.watts, watts);
        set_at(registers, self.points.state, state);
    }

    fn is_off(&self, registers: &[u16]) -> bool
        ensures { result ≡ is_off registers.now self.now }
    {
        number_at(registers, self.points.connected) == Some(0)
    }

    fn is_limited(&self, registers: &[u16]) -> bool
        ensures { result ≡ is_limited registers.now self.now }
    {
        number_at(registers, self.points.limited) == Some(1)
    }

    // The most watts that the controls allow.
    fn limit(&self, registers: &[u16]) -> Option<u128>
        ensures { result ≡ limit_of registers.now self.now }
    {
        if !self.is_limited(registers) {
            return None;
        }
        let raw = number_at(registers, self.points.limit)?;
        let power = power_by(registers, self.points.limit_scale)?;
        Some(percent_of(self.wmax, raw, power))
    }

    // The watts that the inverter produces.
    fn watts(&self, registers: &[u16]) -> u32
        ensures watts { result ≡ watts_of registers.now self.now }
        ensures limited { result ≤ 1000000 }
    {
        if self.is_off(registers) {
            return 0;
        }
        let wanted = self.wanted(registers);
        match self.ramp {
            Some(ramp) => {
                let stepped = stepped(self.produced.number(), wanted, ramp);
                self.available.present().min(stepped)
            }
            None => wanted,
        }
    }

    // The watts that are available, or the limit where that is less.
    fn wanted(&self, registers: &[u16]) -> u32
        ensures watts { result ≡ wanted_of registers.now self.now }
        ensures limited { result ≤ 1000000 }
    {
        let available = self.available.present();
        match self.limit(registers) {
            Some(limit) => lesser(available, limit),
            None => available,
        }
    }

    fn watts_word(&self, registers: &[u16]) -> u16
        ensures { result ≡ watts_word registers.now self.now }
    {
        match power_at(registers, self.points.watts_scale) {
            Some(power) => scaled_watts(self.watts(registers), power),
            None => UNIMPLEMENTED,
        }
    }

    fn state_word(&self, registers: &[u16]) -> u16
        ensures { result ≡ state_word registers.now self.now }
    {
        if self.is_off(registers) {
            OFF
        } else if self.available.present() == 0 {
            SLEEPING
        } else if self.watts(registers) < self.available.present() {
            THROTTLED
        } else {
            MPPT
        }
    }
}

// As near to what is wanted as so many watts up or down lead from the watts before.
fn stepped(before: u32, wanted: u32, ramp: u32) -> u32
    requires before { before ≤ 1000000 }
    requires wanted { wanted ≤ 1000000 }
    ensures watts { result ≡ stepped before wanted ramp }
    ensures limited { result ≤ 1000000 }
{
    if before < wanted {
        if wanted - before <= ramp {
            wanted
        } else {
            before + ramp
        }
    } else if before - wanted <= ramp {
        wanted
    } else {
        before - ramp
    }
}

pub(crate) fn word_at(registers: &[u16], at: Option<usize>) -> Option<u16>
    ensures { result ≡ word_at registers.now at }
{
    registers.get(at?).copied()
}

// The number of a uint16 or an enum16.
fn number_at(registers: &[u16], at: Option<usize>) -> Option<u16>
    ensures { result ≡ number_at registers.now at }
{
    match word_at(registers, at) {
        Some(0xFFFF) => None,
        other => other,
    }
}

// 10^(s+10), where s is a factor.
fn power_of(s: i128) -> Option<u128>
    ensures power { result ≡ option_map power_of (factor_of (Some s)) }
    ensures positive { IfSome result (λ p. 0 < p) }
    ensures bound { IfSome result (λ p. p ≤ 10 ^ 20) }
{
    match s {
        factor @ -10..=10 => Some(ten_to((factor as i32 + 10).unsigned_abs())),
        _ => None,
    }
}

fn ten_to(exponent: u32) -> u128
    requires { exponent ≤ 20 }
    ensures power { result ≡ 10 ^ exponent }
    ensures positive { 0 < result }
    ensures bound { result ≤ 10 ^ 20 }
{
    10u128.pow(exponent)
}

pub(crate) fn power_at(registers: &[u16], at: Option<usize>) -> Option<u128>
    ensures power { result ≡ power_at registers.now at }
    ensures positive { IfSome result (λ p. 0 < p) }
    ensures bound { IfSome result (λ p. p ≤ 10 ^ 20) }
{
    let word = word_at(registers, at)?;
    power_of(value(Kind::Sunssf, &[word])?)
}

fn power_by(registers: &[u16], scale: Scale) -> Option<u128>
    ensures power { result ≡ power_by registers.now scale }
    ensures positive { IfSome result (λ p. 0 < p) }
    ensures bound { IfSome result (λ p. p ≤ 10 ^ 20) }
{
    match scale {
        Scale::Fixed(s) => power_of(i128::from(s)),
        Scale::At(at) => power_at(registers, Some(at)),
    }
}

// wmax * raw * 10^sf / 100, rounded down.
fn percent_of(wmax: u32, raw: u16, power: u128) -> u128
    requires { power ≤ 10 ^ 20 }
    ensures { result ≡ percent_of wmax raw power }
{
    wmax as u128 * raw as u128 * power / (100 * ONE)
}

fn lesser(available: u32, limit: u128) -> u32
    ensures lesser { result ≡ min available limit }
    ensures limited { result ≤ available }
{
    if (available as u128) <= limit {
        available
    } else {
        limit as u32
    }
}

// watts / 10^sf, rounded down.
fn scaled_watts(watts: u32, power: u128) -> u16
    requires { 0 < power }
    ensures { result ≡ scaled_watts watts power }
{
    let number = watts as u128 * ONE / power;
    if number <= MOST_WATTS {
        number as u16
    } else {
        UNIMPLEMENTED
    }
}

pub(crate) fn set_at(registers: &mut Vec<u16>, at: Option<usize>, word: u16)
    ensures set { registers.new.items ≡ set_at at word registers.old.items }
    ensures len { length registers.new.items ≡ length registers.old.items }
{
    if let Some(at) = at
        && at < registers.len()
    {
        registers[at] = word;
    }
}
