//! The columns of a trace, and its rows.
ghost use Rattle.std.specs.Prelude.{◌≡◌, ◌<◌, length};

use crate::files::WriteFault;
use crate::run_watch::outgoing::outgoing;
use commands::DEPTH;
use csv::Writer;
use gateway::{Core, WriteOrder};
use note_text::decimal;
use point_types::{Reading, Var};
use service_alarms::{fitted_number, missing_word, output_name};
use site_model::{Access, Fit, Site, SiteTag};
use std::alloc::{AllocError, Global};
use std::io::Write;

/// Writes the heads: `scan`, the name of each tag, `NAME written` for each output, `VAR NAME` for each variable, and `NAME fitted`
/// for each output with the key `fit`.
pub(crate) fn write_heads<W: Write + Drop>(
    alloc: Global,
    rows: &mut Writer<W>,
    core: &Core<DEPTH>,
) -> Result<(), WriteFault> {
    rows.write_field(b"scan")?;
    for tag in core.site().tags() {
        rows.write_field(tag.name.as_bytes())?;
    }
    write_output_heads(alloc, rows, core.site())?;
    write_variable_heads(alloc, rows, variables(core))?;
    write_fitted_heads(alloc, rows, core.site())?;
    rows.end_record()?;
    Ok(())
}

/// The variables of the program that a core runs.
pub(crate) fn variables(core: &Core<DEPTH>) -> &[Var]
    ensures { result.now ≡ core.now.machine.accepted.image.vars }
{
    core.machine().verified().image().vars.as_slice()
}

fn write_variable_heads<W: Write + Drop>(
    alloc: Global,
    rows: &mut Writer<W>,
    vars: &[Var],
) -> Result<(), WriteFault> {
    for var in vars {
        let head = variable_head(alloc, var)?;
        rows.write_field(head.as_bytes())?;
    }
    Ok(())
}

fn variable_head(alloc: Global, var: &Var) -> Result<String, AllocError> {
    let name = var.name.as_str();
    format!(in alloc; "VAR {name}")
}

fn write_output_heads<W: Write + Drop>(
    alloc: Global,
    rows: &mut Writer<W>,
    site: &Site,
) -> Result<(), WriteFault> {
    for i in 0..site.outs().len() {
        let head = output_head(alloc, output_name(site, i), "written")?;
        rows.write_field(head.as_bytes())?;
    }
    Ok(())
}

fn write_fitted_heads<W: Write + Drop>(
    alloc: Global,
    rows: &mut Writer<W>,
    site: &Site,
) -> Result<(), WriteFault> {
    for i in 0..site.outs().len() {
        if fitted_tag(site, i).is_some() {
            let head = output_head(alloc, output_name(site, i), "fitted")?;
            rows.write_field(head.as_bytes())?;
        }
    }
    Ok(())
}

/// The tag of the i-th output, where it has the key `fit`.
fn fitted_tag(site: &Site, i: usize) -> Option<&SiteTag> {
    let tag = site.tags().get(*site.outs().get(i)?)?;
    match tag.fit {
        Fit::Exact => None,
        Fit::Down | Fit::Up => Some(tag),
    }
}

fn output_head(alloc: Global, name: &str, what: &str) -> Result<String, AllocError> {
    let head = format!(in alloc; "{name} {what}")?;
    Ok(head)
}

/// Writes the row of a scan.
pub(crate) fn write_row<W: Write + Drop>(
    alloc: Global,
    rows: &mut Writer<W>,
    core: &Core<DEPTH>,
    order: &WriteOrder,
    scan: u32,
) -> Result<(), WriteFault> {
    let scan = decimal(alloc, i128::from(scan), 0)?;
    rows.write_field(scan.as_bytes())?;
    for (i, tag) in core.site().tags().iter().enumerate() {
        let number = number_of(alloc, core, i, tag)?;
        rows.write_field(number.as_bytes())?;
    }
    write_writes(rows, core, order)?;
    write_variables(alloc, rows, core)?;
    write_fitted(alloc, rows, core, order)?;
    rows.end_record()?;
    Ok(())
}

/// Writes the number that each variable has after the last scan.
fn write_variables<W: Write + Drop>(
    alloc: Global,
    rows: &mut Writer<W>,
    core: &Core<DEPTH>,
) -> Result<(), WriteFault> {
    for i in 0..variables(core).len() {
        let number = decimal(alloc, i128::from(core.machine().var(i)), 0)?;
        rows.write_field(number.as_bytes())?;
    }
    Ok(())
}

/// Writes of each output whether its write went out, or why it didn't.
fn write_writes<W: Write + Drop>(
    rows: &mut Writer<W>,
    core: &Core<DEPTH>,
    order: &WriteOrder,
) -> Result<(), WriteFault> {
    for i in 0..core.site().outs().len() {
        rows.write_field(write_word(core, order, i).as_bytes())?;
    }
    Ok(())
}

/// Writes of each output with the key `fit` the number that goes out, where it isn't the one that the program stored.
fn write_fitted<W: Write + Drop>(
    alloc: Global,
    rows: &mut Writer<W>,
    core: &Core<DEPTH>,
    order: &WriteOrder,
) -> Result<(), WriteFault> {
    for i in 0..core.site().outs().len() {
        if let Some(tag) = fitted_tag(core.site(), i) {
            let number = fitted_text(alloc, core, order, i, tag.exponent)?;
            rows.write_field(number.as_bytes())?;
        }
    }
    Ok(())
}

fn fitted_text(
    alloc: Global,
    core: &Core<DEPTH>,
    order: &WriteOrder,
    i: usize,
    exponent: i8,
) -> Result<String, AllocError>
    requires { i < length core.now.site.outs }
{
    if outgoing(core, order, i).is_err() {
        return Ok(String::new(alloc));
    }
    match fitted_number(core, i) {
        Some(number) => decimal(alloc, i128::from(number), exponent),
        None => Ok(String::new(alloc)),
    }
}

/// `yes` where the last scan wrote the i-th output, and else the cause why not.
fn write_word(core: &Core<DEPTH>, order: &WriteOrder, i: usize) -> &'static str
    requires { i < length core.now.site.outs }
{
    match outgoing(core, order, i) {
        Ok(_) => "yes",
        Err(cause) => cause.word(),
    }
}

/// What a tag was in the last scan.
fn number_of(
    alloc: Global,
    core: &Core<DEPTH>,
    i: usize,
    tag: &SiteTag,
) -> Result<String, AllocError> {
    match tag.access {
        Access::Input | Access::Setting | Access::Time => read_number(alloc, core, i, tag),
        Access::Output | Access::Shown => stored_number(alloc, core, i, tag),
    }
}

/// The value that a tag had of its own, or why it had none: the program may have had its default then.
fn read_number(
    alloc: Global,
    core: &Core<DEPTH>,
    i: usize,
    tag: &SiteTag,
) -> Result<String, AllocError> {
    match core.readings().get(i) {
        Some(Reading::Value(n)) => decimal(alloc, i128::from(*n), tag.exponent),
        Some(Reading::Default(_, cause)) => String::from_str(alloc, missing_word(*cause)),
        Some(Reading::Absent(cause)) => String::from_str(alloc, missing_word(*cause)),
        None => Ok(String::new(alloc)),
    }
}

/// The value that the program stored for a tag; empty where it stored none.
fn stored_number(
    alloc: Global,
    core: &Core<DEPTH>,
    i: usize,
    tag: &SiteTag,
) -> Result<String, AllocError> {
    match core.outputs().get(i) {
        Some(Some(n)) => decimal(alloc, i128::from(*n), tag.exponent),
        _ => Ok(String::new(alloc)),
    }
}
