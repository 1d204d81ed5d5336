//! An object of JSON as it grows.
use serde_json::{Map, Value, put};
use std::alloc::{AllocError, Global};

/// The members of an object.
#[derive(Drop)]
pub(crate) struct Members {
    alloc: Global,
    map: Map<String, Value>,
}

impl Members {
    /// None yet.
    pub(crate) fn new(alloc: Global) -> Members {
        Members {
            alloc,
            map: Map::new(alloc),
        }
    }

    pub(crate) fn value(&mut self, key: &str, value: Value) -> Result<(), AllocError> {
        put(&mut self.map, self.alloc, key, value)
    }

    pub(crate) fn text(&mut self, key: &str, text: &str) -> Result<(), AllocError> {
        let text = Value::try_from_str(self.alloc, text)?;
        self.value(key, text)
    }

    /// A text, or null where there is none.
    pub(crate) fn text_or_null(&mut self, key: &str, text: Option<&str>) -> Result<(), AllocError> {
        match text {
            Some(text) => self.text(key, text),
            None => self.value(key, Value::Null),
        }
    }

    pub(crate) fn number(&mut self, key: &str, number: i64) -> Result<(), AllocError> {
        self.value(key, Value::from(number))
    }

    pub(crate) fn count(&mut self, key: &str, count: u64) -> Result<(), AllocError> {
        self.value(key, Value::from(count))
    }

    pub(crate) fn truth(&mut self, key: &str, truth: bool) -> Result<(), AllocError> {
        self.value(key, Value::from(truth))
    }

    /// The object.
    pub(crate) fn into_value(self) -> Value {
        Value::Object(self.map)
    }
}
