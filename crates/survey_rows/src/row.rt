//! Rows of a table.
use std::alloc::{AllocError, Global};

/// A row: what it is of, what is said of that, and whether something is wrong with it.
#[derive(Drop)]
struct SurveyRow {
    subject: String,
    said: String,
}

/// Rows in a group: what is said of them stands in one column.
#[derive(Drop)]
pub(crate) struct Rows {
    rows: Vec<SurveyRow>,
    wrong: usize,
}

impl Rows {
    pub(crate) fn new(alloc: Global) -> Rows {
        Rows {
            rows: Vec::new(alloc),
            wrong: 0,
        }
    }

    /// How many rows say that something is wrong.
    pub(crate) fn wrong(&self) -> usize {
        self.wrong
    }

    /// Appends a row, which says that something is wrong, or not.
    pub(crate) fn push(
        &mut self,
        subject: String,
        said: String,
        is_wrong: bool,
    ) -> Result<(), AllocError> {
        if is_wrong {
            self.wrong = self.wrong.saturating_add(1);
        }
        match self.rows.push(SurveyRow { subject, said }) {
            Ok(()) => Ok(()),
            Err(_) => Err(AllocError),
        }
    }

    /// Appends the rows to a text, one a line.
    pub(crate) fn tell(&self, text: &mut String) -> Result<(), AllocError> {
        let width = self.width();
        for row in &self.rows {
            push_padded(text, row.subject.as_str(), width)?;
            text.push_str(row.said.as_str())?;
            text.push_str("\n")?;
        }
        Ok(())
    }

    /// The letters of the longest subject.
    fn width(&self) -> usize {
        let mut most = 0;
        for row in &self.rows {
            most = row.subject.as_str().chars().count().max(most);
        }
        most
    }
}

/// Appends a text, blanks up to a width, and one more.
fn push_padded(text: &mut String, word: &str, width: usize) -> Result<(), AllocError> {
    text.push_str(word)?;
    for _ in word.chars().count()..width.saturating_add(1) {
        text.push_str(" ")?;
    }
    Ok(())
}
