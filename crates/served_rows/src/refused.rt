//! The register for which a client's write is refused.
ghost use Rattle.std.specs.Prelude.{◌≡◌, ◌≤◌, ◌+◌, IfOk, MatchOption, option_map};
ghost use Rattle.served_rows.specs.Rows.{subject_of};
ghost use Rattle.served_rows.specs.Refusing.{IsFirstRefused, IsRefusedAt, MayWriteAll, has, may_write, may_write_point, row_at, span_of};

use crate::row::{MapRow, PointSubject};
use crate::rows::map_rows;
use gateway::setting_of;
use modbus_frame::Request;
use site_model::{Site, SiteTag};
use std::alloc::{AllocError, Global};

/// A register for which a write is refused, and what lies there.
#[derive(Clone, Copy)]
pub struct RefusedRegister {
    /// Its address; the first register of all has the address 0.
    pub address: usize,
    /// What the point there is of; None where no point of the map lies there.
    pub subject: Option<PointSubject>,
}

/// The registers that a write has: from the first on, before the end.
#[derive(Clone, Copy)]
pub struct WriteSpan {
    pub first: usize,
    pub end: usize,
}

/// The first register of a write that isn't one of a `set` point all of whose registers the write has: for such a register the
/// gateway answers with exception 02 (Modbus Application Protocol V1.1b3, section 7). None where there is none, and for a read.
/// AllocError where memory is refused.
pub fn refused_register(
    alloc: Global,
    site: &Site,
    request: &Request,
) -> Result<Option<RefusedRegister>, AllocError>
    ensures { IfOk result (IsRefusedAt site.now request.now) }
{
    let rows = map_rows(alloc, site)?;
    match span_of(request) {
        Some(span) => Ok(first_refused(rows.as_slice(), site.tags(), span)),
        None => Ok(None),
    }
}

/// The registers that a request writes; None for a read.
fn span_of(request: &Request) -> Option<WriteSpan>
    ensures { result ≡ span_of request.now }
{
    match request {
        Request::Read { .. } => None,
        Request::WriteOne { addr, .. } => Some(span_from(*addr, 1)),
        Request::WriteMany { addr, words } => Some(span_from(*addr, words.as_slice().len())),
    }
}

fn span_from(first: u16, count: usize) -> WriteSpan
    requires { count ≤ 125 }
    ensures { result ≡ record { first = first; end = first + count } }
{
    let first = usize::from(first);
    WriteSpan {
        first,
        end: first + count,
    }
}

/// The first register that a write may not write.
fn first_refused(rows: &[MapRow], tags: &[SiteTag], span: WriteSpan) -> Option<RefusedRegister>
    ensures { MatchOption result (MayWriteAll tags.now rows.now span) (IsFirstRefused tags.now rows.now span) }
{
    for address in span.first..span.end {
        if !may_write(rows, tags, span, address) {
            let subject = subject_at(rows, address);
            return Some(RefusedRegister { address, subject });
        }
    }
    None
}

/// Whether a write may write a register: one of a point that it may write.
fn may_write(rows: &[MapRow], tags: &[SiteTag], span: WriteSpan, register: usize) -> bool
    ensures { result ≡ may_write tags.now rows.now span register }
{
    match row_at(rows, register) {
        Some(row) => may_write_point(tags, span, row),
        None => false,
    }
}

/// Whether a write may write a point: a `set` tag's, all of whose registers it has.
fn may_write_point(tags: &[SiteTag], span: WriteSpan, row: MapRow) -> bool
    ensures { result ≡ may_write_point tags.now span row }
{
    setting_of(tags, row.point).is_some() && span.first <= row.address && row.end() <= span.end
}

/// What the point is of that has a register.
fn subject_at(rows: &[MapRow], register: usize) -> Option<PointSubject>
    ensures { result ≡ option_map subject_of (row_at rows.now register) }
{
    match row_at(rows, register) {
        Some(row) => Some(row.subject),
        None => None,
    }
}

/// The point that has a register.
fn row_at(rows: &[MapRow], register: usize) -> Option<MapRow>
    ensures { result ≡ row_at rows.now register }
{
    rows.iter().copied().find(|row| has(register, *row))
}

fn has(register: usize, row: MapRow) -> bool
    ensures { result ≡ has register row }
{
    row.address <= register && register < row.end()
}
