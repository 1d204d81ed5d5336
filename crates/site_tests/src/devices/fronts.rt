//! Plant files and definitions that end too soon.

use crate::devices::{assert_same, assert_true, definitions};
use inverter_sim::{Plant, PlantFault};
use model_defs::{DefFault, ModelDef, read, shipped};
use std::alloc::Global;
use std::process::Abort;

/// A plant of two inverters.
pub(crate) const PLANT: &str =
    "# Two three-phase inverters (SunSpec models 1, 103 and 123) of 5 kW. The first has 4 kW available at each tick,
# the second 2.5 kW. Their watts are shown in whole watts (W_SF 0); the first takes its limit in tenths of a percent.

[[device]]
unit = 1
models = [1, 103, 123]
wmax = 5000
available = [4000]

[[device.value]]
model = 103
point = \"W_SF\"
raw = 0

[[device.value]]
model = 123
point = \"WMaxLimPct_SF\"
raw = -1

[[device]]
unit = 2
models = [1, 103, 123]
wmax = 5000
available = [2500]

[[device.value]]
model = 103
point = \"W_SF\"
raw = 0
";

/// Whether a text is a plant file; else it has a fault.
fn is_plant(rt: &impl Abort, alloc: Global, defs: &[ModelDef], text: &str) -> bool {
    let fault = Plant::read(alloc, text, defs).err();
    assert_true(rt, fault != Some(PlantFault::OutOfMemory));
    fault.is_none()
}

#[test]
fn each_front_of_a_file_is_a_plant_or_a_fault(rt: HostRuntime) {
    let defs = definitions(&rt, rt.alloc());
    let mut plants = 0u32;
    for length in 0..=PLANT.len() {
        let text = PLANT.get(..length).expect(&rt, "a front");
        if is_plant(&rt, rt.alloc(), &defs, text) {
            plants = plants.saturating_add(1);
        }
    }
    // at least the file, the one without its last line end, and the empty one
    assert_true(&rt, plants >= 3);
}

/// Each front of a text that ends before its last brace.
#[test]
fn a_cut_text_is_no_json(rt: HostRuntime) {
    let text = shipped(103).expect(&rt, "a text");
    let (most, _) = text.rsplit_once('}').expect(&rt, "a brace");
    for end in 0..=most.len() {
        let fault = read(rt.alloc(), most.as_bytes().split_at(end).0).err();
        assert_same(&rt, &fault, &Some(DefFault::NotJson));
    }
}
