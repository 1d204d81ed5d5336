//! The registers that a tick looks at and sets.
ghost use Rattle.std.specs.Prelude.{◌≡◌, ◌≤◌, ◌<◌};
ghost use Rattle.inverter_sim.specs.Image.{number_of};

/// What scales a point of a device: a power of ten, or the register that holds one, counted from the device's base.
#[derive(Clone, Copy, PartialEq, Eq, Debug)]
pub enum Scale {
    Fixed(i8),
    At(usize),
}

/// The registers that a tick of an inverter looks at and sets, counted from the device's base; none where the device
/// lacks the point or has it in another form (SunSpec models 101 to 103, inverters, and 123, immediate controls).
#[derive(Clone, Copy, PartialEq, Eq, Debug)]
pub struct InverterPoints {
    /// ID of the inverter model.
    pub inverter: Option<usize>,
    /// W of the inverter model.
    pub watts: Option<usize>,
    /// W_SF of the inverter model.
    pub watts_scale: Option<usize>,
    /// St of the inverter model.
    pub state: Option<usize>,
    /// Conn of model 123.
    pub connected: Option<usize>,
    /// WMaxLim_Ena of model 123.
    pub limited: Option<usize>,
    /// WMaxLimPct of model 123.
    pub limit: Option<usize>,
    /// What scales WMaxLimPct.
    pub limit_scale: Scale,
}

/// How many phases a meter has.
#[derive(Clone, Copy, PartialEq, Eq, Debug)]
pub enum Phases {
    One,
    Two,
    Three,
}

impl Phases {
    pub(crate) fn number(self) -> u32
        ensures number { result ≡ number_of self }
        ensures some { 0 < result }
        ensures limited { result ≤ 3 }
    {
        match self {
            Phases::One => 1,
            Phases::Two => 2,
            Phases::Three => 3,
        }
    }
}

/// The registers that show what flows through a meter, or through one of its phases; none as of an inverter.
#[derive(Clone, Copy, PartialEq, Eq, Debug)]
pub struct FlowPoints {
    /// W, or WphA, WphB or WphC.
    pub watts: Option<usize>,
    /// A, or AphA, AphB or AphC.
    pub current: Option<usize>,
}

/// The registers that a tick of a meter looks at and sets, counted likewise (SunSpec models 201 to 204, meters); a phase
/// that the model doesn't count has none.
#[derive(Clone, Copy, PartialEq, Eq, Debug)]
pub struct MeterPoints {
    /// ID of the meter model.
    pub meter: Option<usize>,
    /// How many phases the meter model counts.
    pub phases: Phases,
    /// W and A of the meter model.
    pub whole: FlowPoints,
    /// Those of its phases.
    pub phase_a: FlowPoints,
    pub phase_b: FlowPoints,
    pub phase_c: FlowPoints,
    /// W_SF of the meter model.
    pub watts_scale: Option<usize>,
    /// A_SF of the meter model.
    pub current_scale: Option<usize>,
    /// PhV of the meter model.
    pub voltage: Option<usize>,
    /// V_SF of the meter model.
    pub voltage_scale: Option<usize>,
}
