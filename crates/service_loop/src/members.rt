//! Members of an object of JSON.
use serde_json::{Map, Value, put};
use std::alloc::{AllocError, Global};

pub(crate) fn put_text(
    object: &mut Map<String, Value>,
    alloc: Global,
    key: &str,
    text: &str,
) -> Result<(), AllocError> {
    let value = Value::try_from_str(alloc, text)?;
    put(object, alloc, key, value)
}

pub(crate) fn put_number(
    object: &mut Map<String, Value>,
    alloc: Global,
    key: &str,
    number: u64,
) -> Result<(), AllocError> {
    put(object, alloc, key, Value::from(number))
}

/// A number, or null where there is none.
pub(crate) fn put_signed(
    object: &mut Map<String, Value>,
    alloc: Global,
    key: &str,
    number: Option<i64>,
) -> Result<(), AllocError> {
    put(object, alloc, key, number_value(number))
}

fn number_value(number: Option<i64>) -> Value {
    match number {
        Some(number) => Value::from(number),
        None => Value::Null,
    }
}

pub(crate) fn put_truth(
    object: &mut Map<String, Value>,
    alloc: Global,
    key: &str,
    truth: bool,
) -> Result<(), AllocError> {
    put(object, alloc, key, Value::from(truth))
}

pub(crate) fn put_list(
    object: &mut Map<String, Value>,
    alloc: Global,
    key: &str,
    values: Vec<Value>,
) -> Result<(), AllocError> {
    put(object, alloc, key, Value::Array(values))
}
