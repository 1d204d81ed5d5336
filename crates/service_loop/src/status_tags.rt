//! The numbers of a service, as JSON.
use crate::clients::Clients;
use crate::members::{put_number, put_signed, put_text};
use crate::taken_outputs::{TakenNumber, TakenOutputs};
use gateway::{Core, DEPTH};
use point_types::{Cause, Reading};
use serde_json::{Map, Value, put};
use service::{Difference, OutputState, Service, Unwritten};
use service_alarms::{fitted_number, missing_word, shown_number, unwritten_word};
use site_model::{Access, SiteTag};
use std::alloc::{AllocError, Global};
use std::net::SocketAddr;

/// What each tag was in the last scan, by its name.
pub(crate) fn tags_value(
    alloc: Global,
    core: &Core<DEPTH>,
    clients: &Clients,
) -> Result<Value, AllocError> {
    let mut values = Map::new(alloc);
    for (place, tag) in core.site().tags().iter().enumerate() {
        let mut value = Map::new(alloc);
        put_text(&mut value, alloc, "access", access_word(tag.access))?;
        put_signed(&mut value, alloc, "exponent", Some(i64::from(tag.exponent)))?;
        put_numbers(&mut value, alloc, core, tag, place)?;
        put_setter(&mut value, alloc, clients.setter(place))?;
        put(&mut values, alloc, tag.name.as_str(), Value::Object(value))?;
    }
    Ok(Value::Object(values))
}

/// Puts what a tag is: what the program stored where it writes it, else what it was to the program.
fn put_numbers(
    value: &mut Map<String, Value>,
    alloc: Global,
    core: &Core<DEPTH>,
    tag: &SiteTag,
    place: usize,
) -> Result<(), AllocError> {
    match tag.access {
        Access::Output | Access::Shown => {
            put_known(value, alloc, "value", number_at(core.outputs(), place))
        }
        Access::Input | Access::Setting | Access::Time => {
            if let Some(reading) = core.readings().get(place) {
                put_reading(value, alloc, tag.access, *reading)?;
            }
            put_age(value, alloc, core, tag, place)
        }
    }
}

fn put_reading(
    value: &mut Map<String, Value>,
    alloc: Global,
    access: Access,
    reading: Reading,
) -> Result<(), AllocError> {
    match reading {
        Reading::Value(number) => put_signed(value, alloc, "value", Some(number)),
        Reading::Default(number, cause) => {
            put_signed(value, alloc, "default", Some(number))?;
            put_cause(value, alloc, access, cause)
        }
        Reading::Absent(cause) => put_cause(value, alloc, access, cause),
    }
}

/// Puts who set a tag, where somebody did.
fn put_setter(
    value: &mut Map<String, Value>,
    alloc: Global,
    setter: Option<SocketAddr>,
) -> Result<(), AllocError> {
    match setter {
        Some(address) => {
            let by = address.to_string(alloc)?;
            put_text(value, alloc, "by", by.as_str())
        }
        None => Ok(()),
    }
}

/// Puts a number, where there is one.
fn put_known(
    value: &mut Map<String, Value>,
    alloc: Global,
    key: &str,
    number: Option<i64>,
) -> Result<(), AllocError> {
    match number {
        Some(_) => put_signed(value, alloc, key, number),
        None => Ok(()),
    }
}

/// Puts since when a tag that clients set was set, and when it lapses; nothing where it isn't set.
fn put_age(
    value: &mut Map<String, Value>,
    alloc: Global,
    core: &Core<DEPTH>,
    tag: &SiteTag,
    place: usize,
) -> Result<(), AllocError> {
    if number_at(core.settings(), place).is_none() {
        return Ok(());
    }
    match age_at(core.ages(), place) {
        Some(age) => put_seconds(value, alloc, tag.lapse, age / 1000),
        None => Ok(()),
    }
}

/// Puts for how many seconds a tag is set, and for how many more it is.
fn put_seconds(
    value: &mut Map<String, Value>,
    alloc: Global,
    lapse: Option<u32>,
    age: u32,
) -> Result<(), AllocError> {
    put_number(value, alloc, "age", u64::from(age))?;
    match lapse {
        Some(lapse) => {
            let left = lapse.saturating_sub(age);
            put_number(value, alloc, "left", u64::from(left))
        }
        None => Ok(()),
    }
}

fn age_at(ages: &[Option<u32>], place: usize) -> Option<u32> {
    match ages.get(place) {
        Some(age) => *age,
        None => None,
    }
}

/// Puts why a tag has no value of its own, where one is wanted: of an `in` tag.
fn put_cause(
    value: &mut Map<String, Value>,
    alloc: Global,
    access: Access,
    cause: Cause,
) -> Result<(), AllocError> {
    if access == Access::Input {
        put_text(value, alloc, "cause", missing_word(cause))?;
    }
    Ok(())
}

/// The word of an access, as site files have it.
fn access_word(access: Access) -> &'static str {
    match access {
        Access::Input => "in",
        Access::Output => "out",
        Access::Setting => "set",
        Access::Shown => "site",
        Access::Time => "time",
    }
}

/// What the program stored in each `out` tag, the number that goes out where it isn't that one, whether its device took it and shows it
/// so, and what it took last; so many milliseconds after the start.
pub(crate) fn outputs_value(
    alloc: Global,
    service: &Service,
    taken: &TakenOutputs,
    now: u64,
) -> Result<Value, AllocError> {
    let core = service.core();
    let mut values = Map::new(alloc);
    for (output, place) in core.site().outs().iter().enumerate() {
        if let Some(tag) = core.site().tags().get(*place) {
            let mut value = output_value(alloc, service, output, *place)?;
            put_taken(&mut value, alloc, taken.at(output), now)?;
            let value = Value::Object(value);
            put(&mut values, alloc, tag.name.as_str(), value)?;
        }
    }
    Ok(Value::Object(values))
}

fn number_at(numbers: &[Option<i64>], place: usize) -> Option<i64> {
    match numbers.get(place) {
        Some(number) => *number,
        None => None,
    }
}

fn output_value(
    alloc: Global,
    service: &Service,
    output: usize,
    place: usize,
) -> Result<Map<String, Value>, AllocError> {
    let core = service.core();
    let mut value = Map::new(alloc);
    put_signed(&mut value, alloc, "value", number_at(core.outputs(), place))?;
    let fitted = fitted_number(core, output);
    if fitted.is_some() {
        put_signed(&mut value, alloc, "fitted", fitted)?;
    }
    match service.difference(output) {
        Some(difference) => {
            put_text(&mut value, alloc, "state", "differs")?;
            put_difference(&mut value, alloc, core, output, difference)?;
        }
        None => put_state(&mut value, alloc, service.output_state(output))?,
    }
    Ok(value)
}

/// Puts what the device of an output took last, and how many seconds ago; null before it took anything.
fn put_taken(
    value: &mut Map<String, Value>,
    alloc: Global,
    taken: Option<TakenNumber>,
    now: u64,
) -> Result<(), AllocError> {
    let Some(taken) = taken else {
        return put(value, alloc, "taken", Value::Null);
    };
    let mut number = Map::new(alloc);
    put_signed(&mut number, alloc, "value", Some(taken.number))?;
    put_number(&mut number, alloc, "age", taken.age(now))?;
    put(value, alloc, "taken", Value::Object(number))
}

fn put_state(
    value: &mut Map<String, Value>,
    alloc: Global,
    state: Option<OutputState>,
) -> Result<(), AllocError> {
    match state {
        Some(OutputState::Written) => put_text(value, alloc, "state", "written"),
        Some(OutputState::Unwritten(cause)) => {
            put_text(value, alloc, "state", "unwritten")?;
            put_text(value, alloc, "cause", unwritten_word(cause))?;
            put_code(value, alloc, cause)
        }
        None => put(value, alloc, "state", Value::Null),
    }
}

/// Puts what a device took of an output, and what it shows.
pub(crate) fn put_difference(
    value: &mut Map<String, Value>,
    alloc: Global,
    core: &Core<DEPTH>,
    output: usize,
    difference: Difference,
) -> Result<(), AllocError> {
    let wrote = shown_number(alloc, core, output, difference.wrote)?;
    let shows = shown_number(alloc, core, output, difference.shows)?;
    put_text(value, alloc, "wrote", wrote.as_str())?;
    put_text(value, alloc, "device", shows.as_str())
}

/// Puts the exception code with which a device refused an output, where it did.
pub(crate) fn put_code(
    value: &mut Map<String, Value>,
    alloc: Global,
    cause: Unwritten,
) -> Result<(), AllocError> {
    match cause {
        Unwritten::Refused(Some(exception)) => {
            put_number(value, alloc, "code", u64::from(exception.0))
        }
        _ => Ok(()),
    }
}

/// What clients set, for the tags that are set.
pub(crate) fn set_value(alloc: Global, core: &Core<DEPTH>) -> Result<Value, AllocError> {
    let mut values = Map::new(alloc);
    for (tag, number) in core.site().tags().iter().zip(core.settings()) {
        if let Some(number) = number {
            put_signed(&mut values, alloc, tag.name.as_str(), Some(*number))?;
        }
    }
    Ok(Value::Object(values))
}

/// The program's variables, by their names.
pub(crate) fn variables_value(alloc: Global, core: &Core<DEPTH>) -> Result<Value, AllocError> {
    let machine = core.machine();
    let mut values = Map::new(alloc);
    for (place, variable) in machine
        .verified()
        .image()
        .vars
        .as_slice()
        .iter()
        .enumerate()
    {
        let number = machine.var(place);
        put_signed(&mut values, alloc, variable.name.as_str(), Some(number))?;
    }
    Ok(Value::Object(values))
}
