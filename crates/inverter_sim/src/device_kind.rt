//! The kinds of devices of a plant.
ghost use Rattle.std.specs.Prelude.{◌≡◌};
ghost use Rattle.inverter_sim.specs.File.{kind_named};

/// What a device of a plant file is.
#[derive(Clone, Copy, PartialEq, Eq, Debug)]
pub enum DeviceKind {
    Inverter,
    Meter,
}

/// The kind of a device by its word.
pub fn kind_named(word: &str) -> Option<DeviceKind>
    ensures { result ≡ kind_named word.now }
{
    match word {
        "inverter" => Some(DeviceKind::Inverter),
        "meter" => Some(DeviceKind::Meter),
        _ => None,
    }
}
