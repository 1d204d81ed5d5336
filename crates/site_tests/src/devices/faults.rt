//! Faults are printed by their words.

use crate::devices::assert_same;
use modbus_frame::{Exception, FrameFault, LinkFault, ReplyFault};
use model_defs::DefFault;
use register_map::{MapFault, ReadFault};
use std::alloc::Global;
use std::fmt::Display;
use std::process::Abort;

fn assert_prints(rt: &impl Abort, alloc: Global, fault: &impl Display, word: &str) {
    let printed = format!(in alloc; "{fault}").expect(rt, "memory");
    assert_same(rt, &printed.as_str(), &word);
}

static FRAME_FAULTS: [FrameFault; 2] = [FrameFault::BadProtocol, FrameFault::BadLength];

static LINK_FAULTS: [LinkFault; 6] = [
    LinkFault::Read,
    LinkFault::Write,
    LinkFault::Frame(FrameFault::BadLength),
    LinkFault::End,
    LinkFault::Turns,
    LinkFault::OutOfMemory,
];

static REPLY_FAULTS: [ReplyFault; 2] = [ReplyFault::Exception(Exception(1)), ReplyFault::Mismatch];

#[test]
fn faults_of_links(rt: HostRuntime) {
    for fault in &FRAME_FAULTS {
        assert_prints(&rt, rt.alloc(), fault, fault.word());
    }
    for fault in &LINK_FAULTS {
        assert_prints(&rt, rt.alloc(), fault, fault.word());
    }
    for fault in &REPLY_FAULTS {
        assert_prints(&rt, rt.alloc(), fault, fault.word());
    }
}

static MAP_FAULTS: [MapFault; 5] = [
    MapFault::NoMark,
    MapFault::NotCommon,
    MapFault::PastEnd,
    MapFault::TooMany,
    MapFault::Read,
];

static READ_FAULTS: [ReadFault; 2] = [ReadFault::Refused, ReadFault::Failed];

static DEFINITION_FAULTS: [DefFault; 10] = [
    DefFault::NotJson,
    DefFault::MissingKey,
    DefFault::BadType,
    DefFault::BadSize,
    DefFault::DuplicateName,
    DefFault::BadScalePoint,
    DefFault::Repeating,
    DefFault::TooLong,
    DefFault::BadHeader,
    DefFault::OutOfMemory,
];

#[test]
fn faults_of_maps_and_definitions(rt: HostRuntime) {
    for fault in &MAP_FAULTS {
        assert_prints(&rt, rt.alloc(), fault, fault.word());
    }
    for fault in &READ_FAULTS {
        assert_prints(&rt, rt.alloc(), fault, fault.word());
    }
    for fault in &DEFINITION_FAULTS {
        assert_prints(&rt, rt.alloc(), fault, fault.word());
    }
}
