//! A text of numbers as it grows.
use crate::labels::push_label;
use std::alloc::{AllocError, Global};
use std::fmt::Display;

/// A text of numbers as it grows.
#[derive(Drop)]
pub(crate) struct Sheet {
    pub alloc: Global,
    text: String,
}

impl Sheet {
    pub(crate) fn new(alloc: Global) -> Sheet {
        Sheet {
            alloc,
            text: String::new(alloc),
        }
    }

    /// All that was told.
    pub(crate) fn into_text(self) -> String {
        self.text
    }

    /// Begins the numbers of a name, which count up, and what they are.
    pub(crate) fn counter(&mut self, name: &str, help: &str) -> Result<(), AllocError> {
        self.begin(name, "counter", help)
    }

    /// Begins the numbers of a name, which go up and down, and what they are.
    pub(crate) fn gauge(&mut self, name: &str, help: &str) -> Result<(), AllocError> {
        self.begin(name, "gauge", help)
    }

    fn begin(&mut self, name: &str, kind: &str, help: &str) -> Result<(), AllocError> {
        writeln!(self.text, "# HELP {name} {help}")?;
        writeln!(self.text, "# TYPE {name} {kind}")?;
        Ok(())
    }

    /// A number without labels.
    pub(crate) fn number<D: Display + Drop>(
        &mut self,
        name: &str,
        value: D,
    ) -> Result<(), AllocError> {
        writeln!(self.text, "{name} {value}")?;
        Ok(())
    }

    /// A number with labels, each a name and a value.
    pub(crate) fn labelled<D: Display + Drop>(
        &mut self,
        name: &str,
        labels: &[(&str, &str)],
        value: D,
    ) -> Result<(), AllocError> {
        self.text.push_str(name)?;
        self.text.push_str("{")?;
        for (place, label) in labels.iter().enumerate() {
            if place > 0 {
                self.text.push_str(",")?;
            }
            self.push_one(label.0, label.1)?;
        }
        writeln!(self.text, "}} {value}")?;
        Ok(())
    }

    fn push_one(&mut self, label: &str, value: &str) -> Result<(), AllocError> {
        self.text.push_str(label)?;
        self.text.push_str("=\"")?;
        push_label(&mut self.text, value)?;
        self.text.push_str("\"")
    }
}

/// 1 where something holds, else 0.
pub(crate) fn truth(holds: bool) -> u64 {
    if holds { 1 } else { 0 }
}
