//! What tags read from the words that are known of their devices.

ghost use Rattle.std.specs.Prelude.{◌≡◌, ◌≤ℤ◌, ℤ, pos, neg_ℤ, None, Some};
ghost use Rattle.point_types.specs.declared.il_type.IlType.TheVariants as il;

use crate::tests::files::SITE;
use crate::tests::{assert_same, definitions, edited, site_of};
use model_defs::ModelDef;
use point_types::{Cause, IlType, Kind, Name, Reading};
use site_model::readings::readings;
use site_model::{Access, Fit, Sf, Site, SiteTag, Want, Words};
use std::alloc::Global;
use std::process::Abort;

/// The power of an inverter in watts: an int16 at offset 14, scaled by the factor at offset 15.
fn power(rt: &impl Abort) -> SiteTag
    ensures { (result.low ≡ neg_ℤ (pos 100000)) × (result.high ≡ pos 100000) }
{
    SiteTag {
        name: Name::from_bytes(b"inv1_w").expect(rt, "a name"),
        access: Access::Input,
        kind: IlType::Dint,
        low: -100000,
        high: 100000,
        default: None,
        exponent: 0,
        bit: None,
        down: false,
        lapse: None,
        fit: Fit::Exact,
        companion: None,
        device: Some(0),
        model: 103,
        point: Kind::Int16,
        writable: false,
        offset: 14,
        sf: Sf::At(15),
    }
}

/// A bit of a bitfield32 at offset 14, after which a factor lies past the block.
fn flag(rt: &impl Abort, bit: u8) -> SiteTag
    ensures { (result.low ≡ pos 0) × (result.high ≡ pos 1) × (result.kind ≡ il.Bool) × (result.default ≡ None) }
{
    SiteTag {
        name: Name::from_bytes(b"tripped").expect(rt, "a name"),
        access: Access::Input,
        kind: IlType::Bool,
        low: 0,
        high: 1,
        default: None,
        exponent: 0,
        bit: Some(bit),
        down: false,
        lapse: None,
        fit: Fit::Exact,
        companion: None,
        device: Some(0),
        model: 103,
        point: Kind::Bitfield32,
        writable: false,
        offset: 14,
        sf: Sf::At(200),
    }
}

/// A limit in percent that clients set.
fn target(rt: &impl Abort) -> SiteTag
    ensures { (result.low ≡ pos 0) × (result.high ≡ pos 100) }
{
    SiteTag {
        name: Name::from_bytes(b"target").expect(rt, "a name"),
        access: Access::Setting,
        kind: IlType::Int,
        low: 0,
        high: 100,
        default: None,
        exponent: 0,
        bit: None,
        down: false,
        lapse: None,
        fit: Fit::Exact,
        companion: None,
        device: None,
        model: 123,
        point: Kind::Uint16,
        writable: true,
        offset: 5,
        sf: Sf::At(23),
    }
}

/// What a tag reads from the registers of model 103, of which those from offset 14 on are these.
fn read(rt: &impl Abort, tag: &SiteTag, registers: &[u16]) -> Reading {
    assert!(rt; registers.len() <= 8);
    let mut words = [0; 22];
    words[0] = 103;
    let end = 14 + registers.len();
    words[14..end].copy_from_slice(registers);
    let block = Words::from_slice(&words[..end]);
    let mut read = [Reading::Absent(Cause::NoBlock)];
    let want = Want {
        device: 0,
        model: 103,
    };
    readings(&[*tag], &[want], &[block], &[None], None, &mut read);
    read[0]
}

/// Registers from offset 14 on, and what a tag reads from them.
type Row = (&'static [u16], Reading);

fn assert_reads(rt: &impl Abort, tag: &SiteTag, rows: &[Row]) {
    for row in rows {
        let (registers, wanted) = *row;
        let found = read(rt, tag, registers);
        assert_same(rt, &(registers, found), &(registers, wanted));
    }
}

static SCALED: [Row; 3] = [
    (&[3000, 0], Reading::Value(3000)),
    (&[30000, 0xFFFF], Reading::Value(3000)),
    (&[0xFFFF, 4], Reading::Value(-10000)),
];

#[test]
fn numbers_are_scaled_to_the_exponent_of_the_tag(rt: HostRuntime) {
    let tag = power(&rt);
    assert_reads(&rt, &tag, &SCALED);
    let mut fine = tag;
    fine.exponent = -2;
    assert_reads(&rt, &fine, &[(&[1234, 0xFFFF], Reading::Value(12340))]);
    let mut fixed = tag;
    fixed.sf = Sf::Fixed(-1);
    assert_reads(&rt, &fixed, &[(&[50], Reading::Value(5))]);
    let mut plain = tag;
    plain.sf = Sf::None;
    assert_reads(&rt, &plain, &[(&[50], Reading::Value(50))]);
}

/// The last power is -1234.
static ROUNDED: [Row; 3] = [
    (&[30005, 0xFFFF], Reading::Value(3000)),
    (&[1234, 0xFFFF], Reading::Value(123)),
    (&[0xFB2E, 0xFFFF], Reading::Value(-124)),
];

static INEXACT: [Row; 3] = [
    (&[30005, 0xFFFF], Reading::Absent(Cause::Inexact)),
    (&[1234, 0xFFFF], Reading::Absent(Cause::Inexact)),
    (&[0xFB2E, 0xFFFF], Reading::Absent(Cause::Inexact)),
];

#[test]
fn a_number_between_two_is_rounded_down_where_the_tag_says_so(rt: HostRuntime) {
    let tag = power(&rt);
    assert_reads(&rt, &tag, &INEXACT);
    let mut down = tag;
    down.down = true;
    assert_reads(&rt, &down, &ROUNDED);
}

static CAUSES: [Row; 6] = [
    (&[], Reading::Absent(Cause::ShortModel)),
    // the factor lies past the block, where the point isn't implemented
    (&[0x8000], Reading::Absent(Cause::ShortModel)),
    (&[0x8000, 11], Reading::Absent(Cause::NotImplemented)),
    (&[0, 11], Reading::Absent(Cause::BadScale)),
    (&[0, 0x8000], Reading::Absent(Cause::BadScale)),
    (&[2, 5], Reading::Absent(Cause::OutOfRange)),
];

#[test]
fn the_first_cause_is_told(rt: HostRuntime) {
    assert_reads(&rt, &power(&rt), &CAUSES);
}

static LAST_BIT: [Row; 2] = [
    (&[0x4000, 0], Reading::Value(1)),
    (&[0x8000, 1], Reading::Absent(Cause::NotImplemented)),
];

#[test]
fn a_bit_is_read_without_a_factor(rt: HostRuntime) {
    assert_reads(&rt, &flag(&rt, 0), &[(&[0, 2], Reading::Value(0))]);
    let second = flag(&rt, 1);
    assert_reads(&rt, &second, &[(&[0, 2], Reading::Value(1))]);
    assert_reads(&rt, &flag(&rt, 30), &LAST_BIT);
    let mut only_false = second;
    only_false.high = 0;
    let beyond = Reading::Absent(Cause::OutOfRange);
    assert_same(&rt, &read(&rt, &only_false, &[0, 2]), &beyond);
}

static DEFAULTS: [Row; 3] = [
    (&[], Reading::Default(50, Cause::ShortModel)),
    (&[2, 5], Reading::Default(50, Cause::OutOfRange)),
    (&[3000, 0], Reading::Value(3000)),
];

#[test]
fn a_default_stands_for_what_is_absent(rt: HostRuntime) {
    let mut tag = power(&rt);
    tag.default = Some(50);
    assert_reads(&rt, &tag, &DEFAULTS);
    let mut other_model = tag;
    other_model.model = 101;
    let unknown = Reading::Default(50, Cause::NoBlock);
    assert_same(&rt, &read(&rt, &other_model, &[3000, 0]), &unknown);
}

/// What a tag reads where this number was set, and no words are known.
fn read_set(tag: &SiteTag, set: Option<i64>) -> Reading
    requires { (n : ℤ) → set ≡ Some n → (tag.now.low ≤ℤ n) × (n ≤ℤ tag.now.high) }
{
    let mut read = [Reading::Absent(Cause::BadScale)];
    readings(&[*tag], &[], &[], &[set], None, &mut read);
    read[0]
}

#[test]
fn settings_are_what_was_set(rt: HostRuntime) {
    let tag = target(&rt);
    let unset = Reading::Absent(Cause::NotImplemented);
    assert_same(&rt, &read_set(&tag, None), &unset);
    assert_same(&rt, &read_set(&tag, Some(60)), &Reading::Value(60));
    let mut half = tag;
    half.default = Some(50);
    let unset = Reading::Default(50, Cause::NotImplemented);
    assert_same(&rt, &read_set(&half, None), &unset);
    let mut shown = tag;
    shown.access = Access::Shown;
    assert_same(
        &rt,
        &read_set(&shown, None),
        &Reading::Absent(Cause::NoBlock),
    );
}

/// Registers of model 103 up to the factor of its power, with a power of 30005 by the factor -1.
fn half_a_watt() -> Option<Words> {
    let mut words = [0; 16];
    words[0] = 103;
    words[14] = 30005;
    words[15] = 0xFFFF;
    Words::from_slice(&words)
}

/// What the first tag of a site of five tags and three wanted blocks reads of that, where nothing was set.
fn first_reading(rt: &impl Abort, site: &Site) -> Reading {
    assert!(rt; site.tags().len() == 5 && site.wants().len() == 3);
    let mut readings = [Reading::Absent(Cause::NotImplemented); 5];
    site.readings(
        &[half_a_watt(), None, None],
        &[None; 5],
        None,
        &mut readings,
    );
    readings[0]
}

/// A key of the first tag, and what that tag reads.
static KEYS: [(&str, Reading); 2] = [
    ("low = -100000", Reading::Absent(Cause::Inexact)),
    ("round = \"down\"\nlow = -100000", Reading::Value(3000)),
];

fn assert_first(rt: &impl Abort, alloc: Global, defs: &[ModelDef], key: &str, wanted: Reading) {
    let text = edited(rt, alloc, SITE, "low = -100000", key);
    let site = site_of(rt, alloc, defs, text.as_str());
    assert_same(rt, &first_reading(rt, &site), &wanted);
}

#[test]
fn a_site_that_was_read_rounds_down_where_its_file_says_so(rt: HostRuntime) {
    let defs = definitions(&rt, rt.alloc());
    for row in &KEYS {
        let (key, wanted) = *row;
        assert_first(&rt, rt.alloc(), &defs, key, wanted);
    }
}
