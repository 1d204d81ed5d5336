//! Where memory is refused, a call says so and nothing else. Each test holds whichever of its allocations is refused: it
//! ends where it gets no memory for what it begins with.

use crate::devices::fronts::PLANT;
use crate::devices::{assert_same, given_definitions};
use inverter_sim::{Plant, PlantFault};
use modbus_frame::Pdu;
use model_defs::{DefFault, read, shipped};
use std::process::Abort;

#[test]
fn a_definition_reads(rt: HostRuntime) {
    let text = shipped(123).expect(&rt, "a text");
    match read(rt.alloc(), text.as_bytes()) {
        Ok(model) => assert_same(&rt, &(model.length, model.find("Conn")), &(24, Some(4))),
        Err(fault) => assert_same(&rt, &fault, &DefFault::OutOfMemory),
    }
}

/// The second unit shows its 2500 watts after a tick.
fn assert_worked(rt: &impl Abort, mut plant: Plant) {
    plant.tick();
    let request = Pdu::from_bytes(&[0x03, 0x9C, 0x94, 0x00, 0x01]).expect(rt, "a PDU");
    let reply = plant.serve(2, &request);
    assert_same(rt, &reply.bytes(), &&[0x03, 0x02, 0x09, 0xC4][..]);
}

#[test]
fn a_plant_reads(rt: HostRuntime) {
    let Some(defs) = given_definitions(rt.alloc()) else {
        return;
    };
    match Plant::read(rt.alloc(), PLANT, &defs) {
        Ok(plant) => assert_worked(&rt, plant),
        Err(fault) => assert_same(&rt, &fault, &PlantFault::OutOfMemory),
    }
}
