//! A page while it is written.
use crate::html::push_html;
use std::alloc::{AllocError, Global};
use std::fmt::Display;

/// A text to which pieces are appended. Where memory is wanted for one, the text lacks it, and is no page: that is told once,
/// at its end.
#[derive(Drop)]
pub(crate) struct Sheet {
    alloc: Global,
    text: String,
    lacks: bool,
}

impl Sheet {
    pub(crate) fn new(alloc: Global) -> Sheet {
        Sheet {
            alloc,
            text: String::new(alloc),
            lacks: false,
        }
    }

    /// Appends a text.
    pub(crate) fn push(&mut self, text: &str) {
        let pushed = self.text.push_str(text);
        self.note(pushed);
    }

    /// Appends a text so that it is shown as it is.
    pub(crate) fn push_html(&mut self, text: &str) {
        let pushed = push_html(&mut self.text, text);
        self.note(pushed);
    }

    /// Appends what a value is shown as.
    pub(crate) fn say<D: Display + Drop>(&mut self, value: D) {
        let pushed = write!(self.text, "{value}");
        self.note(pushed);
    }

    /// A text that was made for it; an empty one where memory was wanted.
    pub(crate) fn got(&mut self, text: Result<String, AllocError>) -> String {
        match text {
            Ok(text) => text,
            Err(_) => {
                self.lacks = true;
                String::new(self.alloc)
            }
        }
    }

    /// The same of a list.
    pub(crate) fn got_list<T: Drop>(&mut self, list: Result<Vec<T>, AllocError>) -> Vec<T> {
        match list {
            Ok(list) => list,
            Err(_) => {
                self.lacks = true;
                Vec::new(self.alloc)
            }
        }
    }

    fn note(&mut self, pushed: Result<(), AllocError>) {
        self.lacks = self.lacks || pushed.is_err();
    }

    /// Whether nothing was appended.
    pub(crate) fn is_empty(&self) -> bool {
        self.text.is_empty()
    }

    /// The whole text, if it lacks nothing.
    pub(crate) fn whole(self) -> Result<String, AllocError> {
        if self.lacks {
            Err(AllocError)
        } else {
            Ok(self.text)
        }
    }
}
