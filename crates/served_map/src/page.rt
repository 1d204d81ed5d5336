//! The table as a page.
use crate::cells::MapOf;
use crate::columns::{COUNT, HEADS};
use run_report::push_html;
use std::alloc::{AllocError, Global};

/// What stands before the title.
const HEAD: &str = "<!DOCTYPE html>
<html lang=\"en\">
<head>
<meta charset=\"utf-8\">
<meta name=\"viewport\" content=\"width=device-width, initial-scale=1\">
<style>
body { margin: 1rem; color: #1c2329; background: #fff; font: 14px/1.4 system-ui, sans-serif; }
h1 { font-size: 1.2rem; }
table { border-collapse: collapse; }
th, td { padding: 0.15rem 0.6rem; border-bottom: 1px solid #c3cbd3; text-align: left; vertical-align: top; }
th { position: sticky; top: 0; background: #e9f1f9; }
tr.set td { background: #eef6ef; }
</style>
<title>";

/// What stands after the table.
const REMARKS: &str =
    "<p>Registers are counted from 0 (address) and from 1 (number). A write of registers that aren't those of whole RW points gets
exception 02, one of a number that isn't in its range or that the registers don't hold exactly exception 03, and one from an
address that may not write exception 01. A set value falls back to its default after its lapse, where it isn't written again.</p>
</body>
</html>
";

/// The column that says who may write.
const ACCESS: usize = 8;

/// The table of a site's own map as a page of HTML.
pub(crate) fn page_of(
    alloc: Global,
    map: &MapOf<'_>,
    rows: &[[String; COUNT]],
) -> Result<String, AllocError> {
    let mut page = String::from_str(alloc, HEAD)?;
    push_title(&mut page, map)?;
    page.push_str("</title>\n</head>\n<body>\n<h1>")?;
    push_title(&mut page, map)?;
    let (port, unit) = (map.port, map.site.unit());
    let place = format!(in alloc; "</h1>\n<p>TCP port {port}, unit {unit}</p>\n")?;
    page.push_str(place.as_str())?;
    push_heads(&mut page)?;
    for row in rows {
        push_row(&mut page, row)?;
    }
    page.push_str("</tbody>\n</table>\n")?;
    page.push_str(REMARKS)?;
    Ok(page)
}

fn push_title(page: &mut String, map: &MapOf<'_>) -> Result<(), AllocError> {
    page.push_str("Registers of ")?;
    push_html(page, map.path)
}

fn push_heads(page: &mut String) -> Result<(), AllocError> {
    page.push_str("<table>\n<thead>\n<tr>")?;
    for head in HEADS.iter() {
        page.push_str("<th>")?;
        page.push_str(head)?;
        page.push_str("</th>")?;
    }
    page.push_str("</tr>\n</thead>\n<tbody>\n")
}

fn push_row(page: &mut String, row: &[String; COUNT]) -> Result<(), AllocError> {
    let is_set = row
        .get(ACCESS)
        .is_some_and(|access| access.as_str() == "RW");
    page.push_str(if is_set { "<tr class=\"set\">" } else { "<tr>" })?;
    for cell in row.iter() {
        page.push_str("<td>")?;
        push_html(page, cell.as_str())?;
        page.push_str("</td>")?;
    }
    page.push_str("</tr>\n")
}
