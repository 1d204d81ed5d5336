//! The table as a text: in columns, for a spreadsheet, or as a page.
use crate::cells::{MapOf, cells_of};
use crate::columns::{COUNT, HEADS};
use crate::page::page_of;
use csv::Writer;
use served_rows::map_rows;
use std::alloc::{AllocError, Global};

/// How a table is written.
#[derive(Clone, Copy, PartialEq, Eq, Debug)]
pub enum MapForm {
    /// In columns.
    Columns,
    /// Comma-separated values (RFC 4180).
    Csv,
    /// A page of HTML.
    Page,
}

/// The table of a site's own map. AllocError where memory is refused.
pub fn text_of(alloc: Global, map: &MapOf<'_>, form: MapForm) -> Result<Vec<u8>, AllocError> {
    let rows = rows_of(alloc, map)?;
    match form {
        MapForm::Columns => Ok(columns_of(alloc, map, &rows)?.into_bytes()),
        MapForm::Csv => csv_of(alloc, map, &rows),
        MapForm::Page => Ok(page_of(alloc, map, &rows)?.into_bytes()),
    }
}

/// The cells of all rows.
fn rows_of(alloc: Global, map: &MapOf<'_>) -> Result<Vec<[String; COUNT]>, AllocError> {
    let points = map_rows(alloc, map.site)?;
    let mut rows = Vec::new(alloc);
    for row in points.as_slice() {
        rows.push(cells_of(alloc, map, row)?)?;
    }
    Ok(rows)
}

/// A line with the port and the unit, one with the heads, and one for each row.
fn columns_of(
    alloc: Global,
    map: &MapOf<'_>,
    rows: &[[String; COUNT]],
) -> Result<String, AllocError> {
    let widths = widths_of(rows);
    let (port, unit) = (map.port, map.site.unit());
    let mut text = format!(in alloc; "port {port} unit {unit}\n")?;
    push_line(&mut text, heads_line(alloc, &widths)?.as_str())?;
    for row in rows {
        push_line(&mut text, row_line(alloc, row, &widths)?.as_str())?;
    }
    Ok(text)
}

fn heads_line(alloc: Global, widths: &[usize; COUNT]) -> Result<String, AllocError> {
    let mut line = String::new(alloc);
    for (head, width) in HEADS.iter().zip(widths.iter()) {
        push_padded(&mut line, head, *width)?;
    }
    Ok(line)
}

fn row_line(
    alloc: Global,
    row: &[String; COUNT],
    widths: &[usize; COUNT],
) -> Result<String, AllocError> {
    let mut line = String::new(alloc);
    for (cell, width) in row.iter().zip(widths.iter()) {
        push_padded(&mut line, cell.as_str(), *width)?;
    }
    Ok(line)
}

/// Appends a line without the blanks at its end.
fn push_line(text: &mut String, line: &str) -> Result<(), AllocError> {
    text.push_str(line.trim_end_matches(' '))?;
    text.push_str("\n")
}

/// The letters of the longest text of each column.
fn widths_of(rows: &[[String; COUNT]]) -> [usize; COUNT] {
    let mut widths = [0; COUNT];
    for (column, width) in widths.iter_mut().enumerate() {
        *width = width_of(rows, column);
    }
    widths
}

fn width_of(rows: &[[String; COUNT]], column: usize) -> usize {
    let mut most = match HEADS.get(column) {
        Some(head) => head.len(),
        None => 0,
    };
    for row in rows {
        if let Some(cell) = row.get(column) {
            most = cell.as_str().chars().count().max(most);
        }
    }
    most
}

/// Appends a text, blanks up to a width, and one more.
fn push_padded(text: &mut String, word: &str, width: usize) -> Result<(), AllocError> {
    text.push_str(word)?;
    for _ in word.chars().count()..width.saturating_add(1) {
        text.push_str(" ")?;
    }
    Ok(())
}

/// The heads and the rows, each after the port and the unit.
fn csv_of(alloc: Global, map: &MapOf<'_>, rows: &[[String; COUNT]]) -> Result<Vec<u8>, AllocError> {
    let (port, unit) = (map.port, map.site.unit());
    let place = [format!(in alloc; "{port}")?, format!(in alloc; "{unit}")?];
    match write_csv(alloc, &place, rows) {
        Ok(text) => Ok(text),
        Err(_) => Err(AllocError),
    }
}

fn write_csv(
    alloc: Global,
    place: &[String; 2],
    rows: &[[String; COUNT]],
) -> Result<Vec<u8>, csv::Error> {
    let mut table = Writer::from_writer(Vec::new(alloc));
    table.write_field(b"port")?;
    table.write_field(b"unit_id")?;
    for head in HEADS.iter() {
        table.write_field(head.as_bytes())?;
    }
    table.end_record()?;
    for row in rows {
        write_cells(&mut table, place)?;
        write_cells(&mut table, row)?;
        table.end_record()?;
    }
    match table.into_inner() {
        Ok(text) => Ok(text),
        Err(fault) => Err(fault.into_error().into()),
    }
}

fn write_cells(table: &mut Writer<Vec<u8>>, cells: &[String]) -> Result<(), csv::Error> {
    for cell in cells {
        table.write_field(cell.as_bytes())?;
    }
    Ok(())
}
