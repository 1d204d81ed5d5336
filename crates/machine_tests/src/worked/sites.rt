//! A worked site, and sites of other texts.

use model_defs::{ModelDef, read, shipped};
use site_model::Site;
use std::alloc::Global;

/// Two inverters, whose total power is shown, a target that clients set, and a limit for the first inverter.
pub static SITE: &str = r#"[gateway]
unit = 1
base = 40000
models = [1, 103, 123]

[[device]]
name = "inv1"
unit = 1

[[device]]
name = "inv2"
unit = 2

[[tag]]
name = "inv1_w"
access = "in"
device = "inv1"
model = 103
point = "W"
type = "DINT"
exponent = 0
low = -100000
high = 100000

[[tag]]
name = "inv2_w"
access = "in"
device = "inv2"
model = 103
point = "W"
type = "DINT"
exponent = 0
low = -100000
high = 100000

[[tag]]
name = "target"
access = "set"
model = 123
point = "WMaxLimPct"
type = "INT"
exponent = 0
low = 0
high = 100
default = 50

[[tag]]
name = "lim1"
access = "out"
device = "inv1"
model = 123
point = "WMaxLimPct"
type = "INT"
exponent = 0
low = 0
high = 100

[[tag]]
name = "ena1"
access = "out"
device = "inv1"
model = 123
point = "WMaxLim_Ena"
type = "BOOL"
exponent = 0
low = 0
high = 1

[[served]]
model = 103
point = "W"
sum = ["inv1_w", "inv2_w"]

[[served]]
model = 103
point = "W_SF"
value = 0

[[served]]
model = 123
point = "WMaxLimPct_SF"
value = 0
"#;

/// The definition of a text; None where it is none, or no memory is left.
pub fn definition_of(alloc: Global, text: &str) -> Option<ModelDef> {
    read(alloc, text.as_bytes()).ok()
}

/// The shipped definitions of models 1, 103 and 123; None where no memory is left.
pub fn definitions(alloc: Global) -> Option<Vec<ModelDef>> {
    let mut defs = Vec::new(alloc);
    add_shipped(alloc, &mut defs, 1)?;
    add_shipped(alloc, &mut defs, 103)?;
    add_shipped(alloc, &mut defs, 123)?;
    Some(defs)
}

fn add_shipped(alloc: Global, defs: &mut Vec<ModelDef>, id: u16) -> Option<()> {
    defs.push(definition_of(alloc, shipped(id)?)?).ok()
}

/// The site of a text over those definitions; None where it is none, or no memory is left.
pub fn site_of(alloc: Global, text: &str) -> Option<Site> {
    let defs = definitions(alloc)?;
    Site::read(alloc, text, &defs).ok()
}

/// A text with its first `old` replaced; None where it has none, or no memory is left.
pub fn edited(alloc: Global, text: &str, old: &str, new: &str) -> Option<String> {
    let (before, after) = text.split_once(old)?;
    format!(in alloc; "{before}{new}{after}").ok()
}
