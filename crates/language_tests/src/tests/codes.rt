//! Instructions and their bytes.

use crate::tests::{assert_same, assert_true};
use point_types::{Condition, IlType};
use scan_code::{Op, decode};

/// Three instructions, one after the other.
static BYTES: [u8; 16] = [
    0x05, 0x02, 0xFF, 0xFF, 0xFF, 0xFF, 0xFF, 0xFF, 0xFF, 0xF9, 0x26, 0x00, 0x09, 0x00, 0x0D, 0x25,
];

/// An address in these bytes, the instruction there, and the address after it.
static DECODED: [(usize, Op, usize); 3] = [
    (0, Op::LoadNumber(IlType::Int, -7), 10),
    (10, Op::Repeat(Condition::Always, 0, 9, 13), 15),
    (15, Op::Return(Condition::IfFalse), 16),
];

#[test]
fn spells_and_decodes(rt: HostRuntime) {
    let mut code = Vec::new(rt.alloc());
    for (at, op, behind) in &DECODED {
        op.write(&mut code).expect(&rt, "memory");
        assert_same(&rt, &decode(&BYTES, *at), &Some((*op, *behind)));
    }
    assert_true(&rt, code.as_slice() == BYTES.as_slice());
    assert_true(&rt, decode(&BYTES, 16).is_none());
}

/// A code byte past the table, cut arguments, a truth value of 2, 256 as a SINT, a count of 0.
static UNKNOWN: [&[u8]; 5] = [
    &[0x29],
    &[0x01, 0x00],
    &[0x04, 0x02],
    &[0x05, 0x01, 0, 0, 0, 0, 0, 0, 1, 0],
    &[0x26, 0, 0, 0, 0],
];

#[test]
fn decodes_no_other_bytes(rt: HostRuntime) {
    for code in &UNKNOWN {
        assert_true(&rt, decode(code, 0).is_none());
    }
}
