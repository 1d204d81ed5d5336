//! The values of points, their registers, and names.

ghost use Rattle.std.specs.Prelude.{◌≡◌, ◌≢◌};
ghost use Rattle.point_types.specs.Point.{size_of};

use crate::tests::{assert_prints, assert_same, assert_same_at};
use point_types::{
    Cause, IlType, Kind, Name, Reading, Unencodable, encode, number, scaled, scaled_down, value,
};
use std::process::Abort;

static RANGES: [(IlType, i64, i64); 8] = [
    (IlType::Bool, 0, 1),
    (IlType::Sint, -128, 127),
    (IlType::Int, -32768, 32767),
    (IlType::Dint, -2147483648, 2147483647),
    (IlType::Lint, i64::MIN, 9223372036854775807),
    (IlType::Usint, 0, 255),
    (IlType::Uint, 0, 65535),
    (IlType::Udint, 0, 4294967295),
];

#[test]
fn types_have_the_ranges_of_the_standard(rt: HostRuntime) {
    for (kind, low, high) in &RANGES {
        assert_same(&rt, &(kind.low(), kind.high()), &(*low, *high));
    }
}

#[test]
fn words_are_numbers(rt: HostRuntime) {
    assert_same(
        &rt,
        &(Kind::Pad.size(), Kind::Acc32.size(), Kind::Uint64.size()),
        &(1, 2, 4),
    );
    for (found, wanted) in [
        (number([0x1234]), 0x1234),
        (number([0x0001, 0x0002]), 65538),
        (
            number([0xFFFF, 0xFFFF, 0xFFFF, 0xFFFE]),
            18446744073709551614,
        ),
    ] {
        assert_same(&rt, &found, &wanted);
    }
}

#[test]
fn words_are_values(rt: HostRuntime) {
    for (found, wanted) in [
        (value(Kind::Int16, &[0x8000]), None),
        (value(Kind::Int16, &[0xFFFF]), Some(-1)),
        (value(Kind::Uint16, &[0xFFFF]), None),
        (value(Kind::Acc32, &[0, 0]), None),
        (value(Kind::Bitfield32, &[0x8000, 0x0001]), None),
        (
            value(Kind::Bitfield32, &[0x4000, 0x0001]),
            Some(0x4000_0001),
        ),
        (value(Kind::Uint64, &[0xFFFF, 0xFFFF, 0xFFFF, 0xFFFF]), None),
        (
            value(Kind::Uint64, &[0xFFFF, 0xFFFF, 0xFFFF, 0xFFFE]),
            Some(18446744073709551614),
        ),
    ] {
        assert_same(&rt, &found, &wanted);
    }
}

#[test]
fn points_are_scaled(rt: HostRuntime) {
    let most = 18446744073709551614;
    for (found, wanted) in [
        (
            scaled(1234, Some(-1), -2, -100000, 100000),
            Reading::Value(12340),
        ),
        (
            scaled(1234, Some(-1), 0, -100000, 100000),
            Reading::Absent(Cause::Inexact),
        ),
        (
            scaled(-1234, Some(-1), 0, -100000, 100000),
            Reading::Absent(Cause::Inexact),
        ),
        (
            scaled(1234, Some(0), 0, -100000, 1233),
            Reading::Absent(Cause::OutOfRange),
        ),
        (
            scaled(most, Some(10), -10, i64::MIN, i64::MAX),
            Reading::Absent(Cause::OutOfRange),
        ),
        (
            scaled(0, Some(10), -10, i64::MIN, i64::MAX),
            Reading::Value(0),
        ),
        (
            scaled(0, Some(11), 0, 0, 0),
            Reading::Absent(Cause::BadScale),
        ),
        (
            scaled(0, Some(i16::MIN), 0, 0, 0),
            Reading::Absent(Cause::BadScale),
        ),
        (scaled(0, None, 0, 0, 0), Reading::Absent(Cause::BadScale)),
    ] {
        assert_same(&rt, &found, &wanted);
    }
}

#[test]
fn numbers_are_rounded_down(rt: HostRuntime) {
    for (found, wanted) in [
        (
            scaled_down(1234, Some(-1), 0, -100000, 100000),
            Reading::Value(123),
        ),
        (
            scaled_down(-1234, Some(-1), 0, -100000, 100000),
            Reading::Value(-124),
        ),
        (
            scaled_down(1, Some(-10), 10, -100000, 100000),
            Reading::Value(0),
        ),
        (
            scaled_down(-1, Some(-10), 10, -100000, 100000),
            Reading::Value(-1),
        ),
        (
            scaled_down(-1, Some(-10), 10, 0, 100000),
            Reading::Absent(Cause::OutOfRange),
        ),
        (
            scaled_down(1, Some(11), 0, 0, 1),
            Reading::Absent(Cause::BadScale),
        ),
    ] {
        assert_same(&rt, &found, &wanted);
    }
}

#[test]
fn faults_come_in_order(rt: HostRuntime) {
    for (found, wanted) in [
        (encode(Kind::Uint16, 55, 0, Some(-1)), Ok([550])),
        (
            encode(Kind::Uint16, 70, 0, Some(-3)),
            Err(Unencodable::OutOfType),
        ),
        (
            encode(Kind::Int16, 99999, 0, Some(1)),
            Err(Unencodable::Inexact),
        ),
        (
            encode(Kind::Int16, 1, 0, Some(i16::MIN)),
            Err(Unencodable::BadScale),
        ),
        (encode(Kind::Int16, 1, 0, None), Err(Unencodable::BadScale)),
        (
            encode(Kind::Bitfield16, 0x8001, 0, Some(0)),
            Err(Unencodable::OutOfType),
        ),
    ] {
        assert_same(&rt, &found, &wanted);
    }
    assert_same(&rt, &encode(Kind::Uint32, 65538, 0, Some(0)), &Ok([1, 2]));
    assert_same(
        &rt,
        &encode::<4>(Kind::Int64, i64::MAX, 10, Some(-10)),
        &Err(Unencodable::OutOfType),
    );
}

#[test]
fn ends_read_back(rt: HostRuntime) {
    ends::<1>(&rt, Kind::Int16, -32767, 32767, -32768);
    ends::<1>(&rt, Kind::Uint16, 0, 65534, 65535);
    ends::<1>(&rt, Kind::Acc16, 1, 65535, 0);
    ends::<1>(&rt, Kind::Enum16, 0, 65534, 65535);
    ends::<1>(&rt, Kind::Bitfield16, 0, 32767, 65535);
    ends::<1>(&rt, Kind::Sunssf, -32767, 32767, -32768);
    ends::<1>(&rt, Kind::Pad, 0, 65535, 32768);
    ends::<2>(&rt, Kind::Int32, -2147483647, 2147483647, -2147483648);
    ends::<2>(&rt, Kind::Uint32, 0, 4294967294, 4294967295);
    ends::<2>(&rt, Kind::Enum32, 0, 4294967294, 4294967295);
    ends::<2>(&rt, Kind::Bitfield32, 0, 2147483647, 4294967295);
    ends::<2>(&rt, Kind::Acc32, 1, 4294967295, 0);
    ends::<4>(&rt, Kind::Int64, i64::MIN + 1, i64::MAX, i64::MIN);
    ends::<4>(&rt, Kind::Uint64, 0, i64::MAX, -1);
    ends::<4>(&rt, Kind::Acc64, 1, i64::MAX, 0);
}

// The unimplemented number of uint64 is no i64, so -1 stands for it: it would have the same words.
fn ends<const W: usize>(rt: &impl Abort, kind: Kind, low: i64, high: i64, unimplemented: i64)
    requires numeric { kind ≢ Kind.String }
    requires width { W ≡ size_of kind }
{
    for v in [low, high] {
        match encode::<W>(kind, v, 0, Some(0)) {
            Ok(words) => assert_same_at(rt, &value(kind, &words), &Some(i128::from(v)), &v),
            Err(_) => panic!(rt; "no words"),
        }
    }
    assert_same(
        rt,
        &encode::<W>(kind, unimplemented, 0, Some(0)),
        &Err(Unencodable::OutOfType),
    );
}

static NAMES: [(&str, bool); 18] = [
    ("Total_2", true),
    ("_x", true),
    ("int_to_int", true),
    ("bool_to_int", true),
    ("loop", true),
    ("n", true),
    ("a2345678901234567890123456789012", true),
    ("a23456789012345678901234567890123", false),
    ("", false),
    ("2a", false),
    ("a__b", false),
    ("a_", false),
    ("_", false),
    ("a-b", false),
    ("Int", false),
    ("INT_TO_DINT", false),
    ("jmpcn", false),
    ("s", false),
];

#[test]
fn reads_names(rt: HostRuntime) {
    for (text, is_name) in &NAMES {
        assert_same(&rt, &Name::from_bytes(text.as_bytes()).is_some(), is_name);
    }
}

#[test]
fn keeps_lower_case(rt: HostRuntime) {
    let name = Name::from_bytes(b"Total_2").expect(&rt, "a name");
    assert_same(&rt, &name.as_str(), &"total_2");
    assert_same(&rt, &name.as_bytes(), &b"total_2".as_slice());
    assert_prints(&rt, rt.alloc(), &name, "total_2");
}
