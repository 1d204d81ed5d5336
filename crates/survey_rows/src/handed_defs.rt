//! The definitions that are handed in, by what they say of units, which nothing else reads.
use model_defs::rules::whole_number;
use serde_json::Value;
use std::alloc::{AllocError, Global};

/// The definitions that are handed in, in order.
#[derive(Drop)]
pub struct HandedDefs {
    trees: Vec<Value>,
}

impl HandedDefs {
    /// Those of some texts. One that is no JSON says nothing.
    pub fn read(alloc: Global, texts: &[String]) -> Result<HandedDefs, AllocError> {
        let mut handed = HandedDefs {
            trees: Vec::new(alloc),
        };
        for text in texts {
            handed.take(alloc, text.as_str())?;
        }
        Ok(handed)
    }

    fn take(&mut self, alloc: Global, text: &str) -> Result<(), AllocError> {
        let tree = match Value::from_str(alloc, text) {
            Ok(tree) => tree,
            Err(fault) if fault.is_memory() => return Err(AllocError),
            Err(_) => return Ok(()),
        };
        match self.trees.push(tree) {
            Ok(()) => Ok(()),
            Err(_) => Err(AllocError),
        }
    }

    /// The unit of a model's point, as the last definition of that model has it.
    pub(crate) fn unit_of(&self, model: u16, point: &str) -> Option<&str> {
        let mut found = None;
        for tree in &self.trees {
            if id_of(tree) == Some(i128::from(model)) {
                found = unit_in(tree, point);
            }
        }
        found
    }
}

fn id_of(tree: &Value) -> Option<i128> {
    whole_number(tree.get("id")?)
}

/// What a definition says at a point's key `units`.
fn unit_in<'a>(tree: &'a Value, point: &str) -> Option<&'a str> {
    for object in tree.get("group")?.get("points")?.as_array()? {
        if text_at(object, "name") == Some(point) {
            return text_at(object, "units");
        }
    }
    None
}

fn text_at<'a>(object: &'a Value, key: &str) -> Option<&'a str> {
    object.get(key)?.as_str()
}
