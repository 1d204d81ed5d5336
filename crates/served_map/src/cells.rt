//! What a row says in each column.
use crate::columns::COUNT;
use gateway::{OwnPoint, PointSource};
use model_defs::{ModelDef, Point, Sf};
use note_text::{decimal, escaped};
use served_notes::kind_word;
use served_ranges::demand_of_sum;
use served_rows::{MapRow, PointSubject};
use site_model::{Access, Served, Site, SiteTag, Source};
use std::alloc::{AllocError, Global};
use survey_rows::{HandedDefs, push_inside_quotes, unit_of};

/// What a table is of.
#[derive(Clone, Copy)]
pub struct MapOf<'a> {
    /// The path of the site's file.
    pub path: &'a str,
    pub site: &'a Site,
    /// The definitions that are handed in.
    pub handed: &'a HandedDefs,
    /// The port that clients come to.
    pub port: u16,
}

/// The exception of a write to a point that clients may not write (Modbus Application Protocol V1.1b3, section 7).
const ILLEGAL_ADDRESS: &str = "02";

/// That of a number that isn't in its range, or that its registers don't hold exactly.
const ILLEGAL_VALUE: &str = "03";

/// The cells of a row, in the order of the columns.
pub(crate) fn cells_of(
    alloc: Global,
    map: &MapOf<'_>,
    row: &MapRow,
) -> Result<[String; COUNT], AllocError> {
    let is_set = row.is_set(map.site.tags());
    let tag = tag_of(map.site, row);
    let set = tag.filter(|tag| tag.access == Access::Setting);
    Ok([
        number(alloc, row.address)?,
        number(alloc, row.address.saturating_add(1))?,
        number(alloc, row.registers())?,
        model_cell(alloc, map.site, row)?,
        point_cell(alloc, map.site, row)?,
        String::from_str(alloc, kind_cell(row))?,
        factor_cell(alloc, map.site, row)?,
        unit_cell(alloc, map, row)?,
        String::from_str(alloc, if is_set { "RW" } else { "R" })?,
        shows_cell(alloc, map.site, row)?,
        range_cell(alloc, map.site, row)?,
        default_cell(alloc, set)?,
        lapse_cell(alloc, set)?,
        String::from_str(
            alloc,
            if is_set {
                ILLEGAL_VALUE
            } else {
                ILLEGAL_ADDRESS
            },
        )?,
    ])
}

fn number(alloc: Global, n: usize) -> Result<String, AllocError> {
    format!(in alloc; "{n}")
}

fn model_cell(alloc: Global, site: &Site, row: &MapRow) -> Result<String, AllocError> {
    match model_at(site, row) {
        Some(model) => {
            let id = model.id;
            format!(in alloc; "{id}")
        }
        None => Ok(String::new(alloc)),
    }
}

fn point_cell(alloc: Global, site: &Site, row: &MapRow) -> Result<String, AllocError> {
    match row.subject {
        PointSubject::Mark => String::from_str(alloc, "mark"),
        PointSubject::End => String::from_str(alloc, "end"),
        PointSubject::Point { .. } => escaped(alloc, point_name(site, row)),
    }
}

fn kind_cell(row: &MapRow) -> &'static str {
    match row.point {
        OwnPoint::Word(_) => "uint16",
        OwnPoint::Text { .. } => "string",
        OwnPoint::Number { kind, .. } => kind_word(kind),
    }
}

/// The factor of a number that has one: `-` where its own point says none.
fn factor_cell(alloc: Global, site: &Site, row: &MapRow) -> Result<String, AllocError> {
    let is_scaled = point_at(site, row).is_some_and(|point| point.sf != Sf::None);
    match row.point {
        OwnPoint::Number { factor, .. } if is_scaled => match factor {
            Some(power) => format!(in alloc; "{power}"),
            None => String::from_str(alloc, "-"),
        },
        _ => Ok(String::new(alloc)),
    }
}

fn unit_cell(alloc: Global, map: &MapOf<'_>, row: &MapRow) -> Result<String, AllocError> {
    let Some(model) = model_at(map.site, row) else {
        return Ok(String::new(alloc));
    };
    match unit_of(map.handed, model.id, point_name(map.site, row)) {
        Some(unit) => escaped(alloc, unit),
        None => Ok(String::new(alloc)),
    }
}

/// What the registers read: a number or a text that stays, the sum of some tags, a tag, or nothing.
fn shows_cell(alloc: Global, site: &Site, row: &MapRow) -> Result<String, AllocError> {
    match row.point {
        OwnPoint::Word(word) => format!(in alloc; "{word}"),
        OwnPoint::Text { entry, .. } => entry_cell(alloc, site, entry),
        OwnPoint::Number { source, .. } => match source {
            PointSource::Nothing => String::from_str(alloc, "nothing"),
            PointSource::Entry(entry) => entry_cell(alloc, site, Some(entry)),
            PointSource::Tag(tag) => String::from_str(alloc, name_of(site, tag)),
        },
    }
}

/// What an entry of the site file gives.
fn entry_cell(alloc: Global, site: &Site, entry: Option<usize>) -> Result<String, AllocError> {
    match served_at(site, entry).map(|served| &served.source) {
        None => String::from_str(alloc, "nothing"),
        Some(Source::Raw(raw)) => format!(in alloc; "{raw}"),
        Some(Source::Text(text)) => quoted(alloc, text.as_str()),
        Some(Source::Sum(parts)) => sum_cell(alloc, site, "sum", parts.as_slice()),
        Some(Source::PartialSum(parts)) => {
            sum_cell(alloc, site, "partial sum", parts.as_slice())
        }
    }
}

fn quoted(alloc: Global, text: &str) -> Result<String, AllocError> {
    let mut cell = String::from_str(alloc, "\"")?;
    push_inside_quotes(&mut cell, text)?;
    cell.push_str("\"")?;
    Ok(cell)
}

fn sum_cell(
    alloc: Global,
    site: &Site,
    word: &'static str,
    parts: &[usize],
) -> Result<String, AllocError> {
    let mut cell = String::from_str(alloc, word)?;
    for part in parts {
        cell.push_str(" ")?;
        cell.push_str(name_of(site, *part))?;
    }
    Ok(cell)
}

/// The numbers that a tag or a sum may have, in the unit of the point.
fn range_cell(alloc: Global, site: &Site, row: &MapRow) -> Result<String, AllocError> {
    if let Some(tag) = tag_of(site, row) {
        return span(
            alloc,
            i128::from(tag.low),
            i128::from(tag.high),
            tag.exponent,
        );
    }
    if let OwnPoint::Number {
        source: PointSource::Entry(entry),
        ..
    } = row.point
    {
        return sum_range(alloc, site, entry);
    }
    Ok(String::new(alloc))
}

fn sum_range(alloc: Global, site: &Site, entry: usize) -> Result<String, AllocError> {
    let demand = served_at(site, Some(entry)).and_then(|served| demand_of_sum(site, served));
    match demand {
        Some(demand) => span(alloc, demand.low, demand.high, demand.exponent),
        None => Ok(String::new(alloc)),
    }
}

fn span(alloc: Global, low: i128, high: i128, exponent: i8) -> Result<String, AllocError> {
    let (low, high) = (
        decimal(alloc, low, exponent)?,
        decimal(alloc, high, exponent)?,
    );
    let (low, high) = (low.as_str(), high.as_str());
    format!(in alloc; "{low}..{high}")
}

fn default_cell(alloc: Global, set: Option<&SiteTag>) -> Result<String, AllocError> {
    match set.and_then(|tag| Some((tag.default?, tag.exponent))) {
        Some((default, exponent)) => decimal(alloc, i128::from(default), exponent),
        None => Ok(String::new(alloc)),
    }
}

fn lapse_cell(alloc: Global, set: Option<&SiteTag>) -> Result<String, AllocError> {
    match set.and_then(|tag| tag.lapse) {
        Some(seconds) => format!(in alloc; "{seconds} s"),
        None => Ok(String::new(alloc)),
    }
}

/// The definition of a row's model.
fn model_at<'s>(site: &'s Site, row: &MapRow) -> Option<&'s ModelDef> {
    match row.subject {
        PointSubject::Point { model, .. } => site.models().get(model),
        PointSubject::Mark | PointSubject::End => None,
    }
}

/// The definition of a row's point.
fn point_at<'s>(site: &'s Site, row: &MapRow) -> Option<&'s Point> {
    match row.subject {
        PointSubject::Point { model, point } => {
            let model = site.models().get(model)?;
            model.points.as_slice().get(point)
        }
        PointSubject::Mark | PointSubject::End => None,
    }
}

fn point_name<'s>(site: &'s Site, row: &MapRow) -> &'s str {
    match point_at(site, row) {
        Some(point) => point.name.as_str(),
        None => "",
    }
}

/// The `set` or `site` tag that a row shows.
fn tag_of<'s>(site: &'s Site, row: &MapRow) -> Option<&'s SiteTag> {
    match row.point {
        OwnPoint::Number {
            source: PointSource::Tag(tag),
            ..
        } => site.tags().get(tag),
        _ => None,
    }
}

fn name_of(site: &Site, tag: usize) -> &str {
    match site.tags().get(tag) {
        Some(tag) => tag.name.as_str(),
        None => "",
    }
}

fn served_at(site: &Site, entry: Option<usize>) -> Option<&Served> {
    site.served().get(entry?)
}
