//! The whole table.
use crate::device_rows::device_rows;
use crate::identity_rows::identity_rows;
use crate::input_rows::input_rows;
use crate::lapse_rows::lapse_rows;
use crate::output_rows::output_rows;
use crate::pace_rows::pace_rows;
use crate::reversion_rows::reversion_rows;
use crate::row::Rows;
use crate::seen::Wrongs;
use crate::served_rows::served_rows;
use crate::survey::Survey;
use std::alloc::{AllocError, Global};

/// The table of a survey.
#[derive(Drop)]
pub struct SurveyTable {
    /// Its rows, one a line; the last line says how many things are wrong.
    pub text: String,
    /// How many rows say that something is wrong.
    pub wrong: usize,
}

/// The table of a survey whose service made a scan.
pub fn table_of(alloc: Global, survey: &Survey<'_>) -> Result<SurveyTable, AllocError> {
    let wrongs = Wrongs::of(alloc, survey.service)?;
    let mut table = SurveyTable {
        text: String::new(alloc),
        wrong: 0,
    };
    table.push(&device_rows(alloc, survey, &wrongs)?)?;
    table.push(&identity_rows(alloc, survey)?)?;
    table.push(&pace_rows(alloc, survey)?)?;
    table.push(&input_rows(alloc, survey, &wrongs)?)?;
    table.push(&output_rows(alloc, survey, &wrongs)?)?;
    table.push(&reversion_rows(alloc, survey)?)?;
    table.push(&lapse_rows(alloc, survey)?)?;
    table.push(&served_rows(alloc, survey, &wrongs)?)?;
    let last = last_line(alloc, table.wrong)?;
    table.text.push_str(last.as_str())?;
    Ok(table)
}

impl SurveyTable {
    fn push(&mut self, rows: &Rows) -> Result<(), AllocError> {
        self.wrong = self.wrong.saturating_add(rows.wrong());
        rows.tell(&mut self.text)
    }
}

/// How many things are wrong.
fn last_line(alloc: Global, wrong: usize) -> Result<String, AllocError> {
    match wrong {
        0 => String::from_str(alloc, "nothing is wrong\n"),
        1 => String::from_str(alloc, "1 thing is wrong\n"),
        _ => format!(in alloc; "{wrong} things are wrong\n"),
    }
}
