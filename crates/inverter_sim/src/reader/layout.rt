//! Where the models of a device and their points lie.
ghost use Rattle.std.specs.Prelude.{◌≡◌, ◌+◌, ◌≤◌, ℕ, Some, None, option_map, option_and_then, IfSome};
ghost use Rattle.std.specs.Option.{option_map_or};
ghost use Rattle.inverter_sim.specs.File.{map_length, has_room};
ghost use Rattle.inverter_sim.specs.Image.{placed, point_named, point_of_kind, register_of, is_int16, is_uint16, is_enum16, is_sunssf, scale_by, scale_of, inverter_points_of, inverter_points, phases_of, counting, flow_points_of, meter_points_of, meter_points};
ghost use Rattle.inverter_sim.specs.Reading.{placed_view, models_view};

use crate::points::{FlowPoints, InverterPoints, MeterPoints, Phases, Scale};
use model_defs::{ModelDef, Point, Sf};
use point_types::Kind;

/// A model of a device, and where its ID stands, counted from the device's base.
#[derive(Clone, Copy)]
pub(super) struct PlacedModel<'a> {
    pub(super) at: u16,
    pub(super) model: &'a ModelDef,
}

/// Whether the base is in 0..65534, and the map ends at 65535 at most.
pub(super) fn has_room(base: i64, models: &[&ModelDef]) -> bool
    ensures { result ≡ has_room base (models_view models.now) }
{
    if base < 0 || base > 65534 {
        return false;
    }
    let mut end = base as u32 + 4;
    for model in models {
        end += model.length as u32 + 2;
        if end > 65536 {
            return false;
        }
    }
    end <= 65536
}

/// The first of the models with an ID from lowest to highest.
pub(super) fn locate<'a>(
    models: &[&'a ModelDef],
    lowest: i64,
    highest: i64,
) -> Option<PlacedModel<'a>>
    requires { map_length (models_view models.now) ≤ 65536 }
    ensures { option_map placed_view result ≡ placed lowest highest (models_view models.now) }
{
    let mut at: u16 = 2;
    for model in models {
        let id = i64::from(model.id);
        if lowest <= id && id <= highest {
            return Some(PlacedModel { at, model });
        }
        at += model.length + 2;
    }
    None
}

/// The point of a name.
pub(super) fn point_named<'a>(model: &'a ModelDef, name: &str) -> Option<&'a Point>
    ensures { option_map (λ p. p.now) result ≡ point_named name.now model.now }
{
    let number = model.find(name)?;
    model.points.as_slice().get(number)
}

fn int16_at(placed: PlacedModel<'_>, name: &str) -> Option<usize>
    ensures { result ≡ register_of is_int16 name.now (placed_view placed.entry) }
{
    let point = point_named(placed.model, name)?;
    match point.kind {
        Kind::Int16 => Some(placed.at as usize + point.offset as usize),
        _ => None,
    }
}

fn uint16_at(placed: PlacedModel<'_>, name: &str) -> Option<usize>
    ensures { result ≡ register_of is_uint16 name.now (placed_view placed.entry) }
{
    let point = point_named(placed.model, name)?;
    match point.kind {
        Kind::Uint16 => Some(placed.at as usize + point.offset as usize),
        _ => None,
    }
}

fn enum16_at(placed: PlacedModel<'_>, name: &str) -> Option<usize>
    ensures { result ≡ register_of is_enum16 name.now (placed_view placed.entry) }
{
    let point = point_named(placed.model, name)?;
    match point.kind {
        Kind::Enum16 => Some(placed.at as usize + point.offset as usize),
        _ => None,
    }
}

fn sunssf_at(placed: PlacedModel<'_>, name: &str) -> Option<usize>
    ensures { result ≡ register_of is_sunssf name.now (placed_view placed.entry) }
{
    let point = point_named(placed.model, name)?;
    match point.kind {
        Kind::Sunssf => Some(placed.at as usize + point.offset as usize),
        _ => None,
    }
}

fn scale_by(placed: PlacedModel<'_>, factor: Sf) -> Scale
    ensures { result ≡ scale_by (placed_view placed.entry) factor }
{
    match factor {
        Sf::None => Scale::Fixed(0),
        Sf::Fixed(exponent) => Scale::Fixed(exponent),
        Sf::At(number) => match placed.model.points.as_slice().get(number) {
            Some(point) => Scale::At(placed.at as usize + point.offset as usize),
            None => Scale::Fixed(0),
        },
    }
}

/// What scales the point of a name.
fn scale_of(placed: PlacedModel<'_>, name: &str) -> Scale
    ensures { result ≡ scale_of name.now (placed_view placed.entry) }
{
    match point_named(placed.model, name) {
        Some(point) => scale_by(placed, point.sf),
        None => Scale::Fixed(0),
    }
}

/// The registers that a tick of an inverter looks at and sets: those of the first inverter model, and those of the
/// immediate controls.
pub(super) fn inverter_points(models: &[&ModelDef]) -> InverterPoints
    requires { map_length (models_view models.now) ≤ 65536 }
    ensures { result ≡ inverter_points (models_view models.now) }
{
    inverter_points_of(locate(models, 101, 103), locate(models, 123, 123))
}

/// Those of a meter: of the first meter model.
pub(super) fn meter_points(models: &[&ModelDef]) -> MeterPoints
    requires { map_length (models_view models.now) ≤ 65536 }
    ensures { result ≡ meter_points (models_view models.now) }
{
    meter_points_of(locate(models, 201, 204))
}

fn meter_points_of(meter: Option<PlacedModel<'_>>) -> MeterPoints
    ensures { result ≡ meter_points_of (option_map placed_view meter.entry) }
{
    MeterPoints {
        meter: meter.map(|m| m.at as usize),
        phases: match meter {
            Some(m) => phases_of(m),
            None => Phases::One,
        },
        whole: flow_points_of("W", "A", meter),
        phase_a: flow_points_of("WphA", "AphA", meter),
        phase_b: flow_points_of("WphB", "AphB", counting(2, meter)),
        phase_c: flow_points_of("WphC", "AphC", counting(3, meter)),
        watts_scale: meter.and_then(|m| sunssf_at(m, "W_SF")),
        current_scale: meter.and_then(|m| sunssf_at(m, "A_SF")),
        voltage: meter.and_then(|m| int16_at(m, "PhV")),
        voltage_scale: meter.and_then(|m| sunssf_at(m, "V_SF")),
    }
}

fn phases_of(placed: PlacedModel<'_>) -> Phases
    ensures { result ≡ phases_of (placed_view placed.entry) }
{
    if placed.model.id == 201 {
        Phases::One
    } else if placed.model.id == 202 {
        Phases::Two
    } else {
        Phases::Three
    }
}

// The meter model, where it counts so many phases.
fn counting<'a>(phases: u32, meter: Option<PlacedModel<'a>>) -> Option<PlacedModel<'a>>
    ensures { option_map placed_view result ≡ counting phases (option_map placed_view meter.entry) }
{
    let placed = meter?;
    if phases <= phases_of(placed).number() {
        Some(placed)
    } else {
        None
    }
}

// The points of these names.
fn flow_points_of(watts: &str, current: &str, meter: Option<PlacedModel<'_>>) -> FlowPoints
    ensures { result ≡ flow_points_of watts.now current.now (option_map placed_view meter.entry) }
{
    match meter {
        Some(placed) => FlowPoints {
            watts: int16_at(placed, watts),
            current: int16_at(placed, current),
        },
        None => FlowPoints {
            watts: None,
            current: None,
        },
    }
}

fn inverter_points_of(
    inverter: Option<PlacedModel<'_>>,
    controls: Option<PlacedModel<'_>>,
) -> InverterPoints
    ensures { result ≡ inverter_points_of (option_map placed_view inverter.entry) (option_map placed_view controls.entry) }
{
    InverterPoints {
        inverter: inverter.map(|m| m.at as usize),
        watts: inverter.and_then(|m| int16_at(m, "W")),
        watts_scale: inverter.and_then(|m| sunssf_at(m, "W_SF")),
        state: inverter.and_then(|m| enum16_at(m, "St")),
        connected: controls.and_then(|m| enum16_at(m, "Conn")),
        limited: controls.and_then(|m| enum16_at(m, "WMaxLim_Ena")),
        limit: controls.and_then(|m| uint16_at(m, "WMaxLimPct")),
        limit_scale: match controls {
            Some(m) => scale_of(m, "WMaxLimPct"),
            None => Scale::Fixed(0),
        },
    }
}
