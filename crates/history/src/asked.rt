//! What is asked of the last hour.
ghost use Rattle.std.specs.Prelude.{◌≤◌, length, IfOk};

use std::alloc::{AllocError, Global};

/// The most quantities of an answer.
const MOST: usize = 16;

/// What is asked of the last hour: which quantities, and the lines after a number.
#[derive(Drop)]
pub(crate) struct Asked {
    /// Each name once; 16 at most.
    pub names: Vec<String>,
    pub after: u64,
}

impl Asked {
    /// What the query of a request asks (URL, application/x-www-form-urlencoded): `series`, names with commas between, and
    /// `events`, a number. Nothing else is looked at.
    pub(crate) fn of(alloc: Global, query: &str) -> Result<Asked, AllocError>
        ensures { IfOk result (λ asked. length asked.names.items ≤ 16) }
    {
        let mut asked = Asked {
            names: Vec::new(alloc),
            after: 0,
        };
        for pair in form_urlencoded::parse(alloc, query.as_bytes()) {
            let (key, value) = pair?;
            asked.take(alloc, key.as_str(), value.as_str())?;
        }
        Ok(asked)
    }

    fn take(&mut self, alloc: Global, key: &str, value: &str) -> Result<(), AllocError>
        requires { length self.old.names.items ≤ 16 }
        ensures { length self.new.names.items ≤ 16 }
    {
        match key {
            "series" => return self.take_names(alloc, value),
            "events" => self.after = value.parse::<u64>().unwrap_or(0),
            _ => {}
        }
        Ok(())
    }

    fn take_names(&mut self, alloc: Global, names: &str) -> Result<(), AllocError>
        requires { length self.old.names.items ≤ 16 }
        ensures { length self.new.names.items ≤ 16 }
    {
        for name in names.split(',') {
            if self.names.len() < MOST && !self.has(name) {
                self.names.push(String::from_str(alloc, name)?)?;
            }
        }
        Ok(())
    }

    fn has(&self, name: &str) -> bool {
        for known in self.names.iter() {
            if known.as_str() == name {
                return true;
            }
        }
        false
    }
}
