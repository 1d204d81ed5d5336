//! The lines that a service tells.
ghost use Rattle.std.specs.Prelude.{◌≡◌, ◌++◌, ◌/◌, ◌%◌, codes, string_bytes, IfOk};
ghost use Rattle.std.specs.Fmt.{decimal};
ghost use Rattle.service_texts.specs.Lines as told;

use std::alloc::{AllocError, Global};
use std::net::SocketAddr;

/// A line after the seconds since the start, to the thousandth.
pub fn stamped(alloc: Global, now: u64, line: &str) -> Result<String, AllocError>
    ensures { IfOk result (λ text. string_bytes text ≡ told.stamped_line now line.now) }
{
    let mut text = seconds_and_tenth(alloc, now / 1000, now / 100 % 10)?;
    let rest = two_digits(alloc, now / 10 % 10, now % 10)?;
    text.push_str(rest.as_str())?;
    text.push_str(" ")?;
    text.push_str(line)?;
    text.push_str("\n")?;
    Ok(text)
}

fn seconds_and_tenth(alloc: Global, seconds: u64, tenth: u64) -> Result<String, AllocError>
    ensures { IfOk result (λ text. string_bytes text ≡ decimal seconds ++ codes "." ++ decimal tenth) }
{
    let text = format!(in alloc; "{seconds}.{tenth}")?;
    Ok(text)
}

fn two_digits(alloc: Global, one: u64, other: u64) -> Result<String, AllocError>
    ensures { IfOk result (λ text. string_bytes text ≡ decimal one ++ decimal other) }
{
    let text = format!(in alloc; "{one}{other}")?;
    Ok(text)
}

/// `listening ADDR`, a whole line.
pub fn listening_line(alloc: Global, address: SocketAddr) -> Result<String, AllocError> {
    let text = format!(in alloc; "listening {address}\n")?;
    Ok(text)
}

/// `client ADDR WHAT`.
pub fn client_line(alloc: Global, address: SocketAddr, what: &str) -> Result<String, AllocError> {
    let text = format!(in alloc; "client {address} {what}")?;
    Ok(text)
}

/// `device NAME WHAT`.
pub fn device_line(alloc: Global, name: &str, what: &str) -> Result<String, AllocError>
    ensures { IfOk result (λ text. string_bytes text ≡ told.device_line name.now what.now) }
{
    let text = format!(in alloc; "device {name} {what}")?;
    Ok(text)
}

/// `device NAME lost KIND`.
pub fn lost_line(alloc: Global, name: &str, kind: &str) -> Result<String, AllocError>
    ensures { IfOk result (λ text. string_bytes text ≡ told.lost_line name.now kind.now) }
{
    let text = format!(in alloc; "device {name} lost {kind}")?;
    Ok(text)
}

/// `output NAME written`.
pub fn written_line(alloc: Global, name: &str) -> Result<String, AllocError>
    ensures { IfOk result (λ text. string_bytes text ≡ told.written_line name.now) }
{
    let text = format!(in alloc; "output {name} written")?;
    Ok(text)
}

/// `output NAME unwritten CAUSE`.
pub fn unwritten_line(alloc: Global, name: &str, cause: &str) -> Result<String, AllocError>
    ensures { IfOk result (λ text. string_bytes text ≡ told.unwritten_line name.now cause.now) }
{
    let text = format!(in alloc; "output {name} unwritten {cause}")?;
    Ok(text)
}

/// `output NAME differs wrote W device V`.
pub fn differs_line(
    alloc: Global,
    name: &str,
    wrote: &str,
    shows: &str,
) -> Result<String, AllocError>
    ensures { IfOk result (λ text. string_bytes text ≡ told.differs_line name.now wrote.now shows.now) }
{
    let mut text = took_text(alloc, name, wrote)?;
    text.push_str(" device ")?;
    text.push_str(shows)?;
    Ok(text)
}

fn took_text(alloc: Global, name: &str, wrote: &str) -> Result<String, AllocError>
    ensures { IfOk result (λ text. string_bytes text ≡ told.took_text name.now wrote.now) }
{
    let text = format!(in alloc; "output {name} differs wrote {wrote}")?;
    Ok(text)
}

/// `output NAME agrees`.
pub fn agrees_line(alloc: Global, name: &str) -> Result<String, AllocError>
    ensures { IfOk result (λ text. string_bytes text ≡ told.agrees_line name.now) }
{
    let text = format!(in alloc; "output {name} agrees")?;
    Ok(text)
}

/// `late N`.
pub fn late_line(alloc: Global, late: u64) -> Result<String, AllocError>
    ensures { IfOk result (λ text. string_bytes text ≡ told.late_line late) }
{
    let text = format!(in alloc; "late {late}")?;
    Ok(text)
}

/// `left out N`.
pub fn left_out_line(alloc: Global, left_out: u64) -> Result<String, AllocError>
    ensures { IfOk result (λ text. string_bytes text ≡ told.left_out_line left_out) }
{
    let text = format!(in alloc; "left out {left_out}")?;
    Ok(text)
}

/// `setting TEXT left out`.
pub fn left_out_setting_line(alloc: Global, line: &str) -> Result<String, AllocError>
    ensures { IfOk result (λ text. string_bytes text ≡ told.left_out_setting_line line.now) }
{
    let text = format!(in alloc; "setting {line} left out")?;
    Ok(text)
}

/// `program refused CAUSE`.
pub fn program_refused_line(alloc: Global, cause: &str) -> Result<String, AllocError>
    ensures { IfOk result (λ text. string_bytes text ≡ told.program_refused_line cause.now) }
{
    let text = format!(in alloc; "program refused {cause}")?;
    Ok(text)
}

/// `program kept HASH`.
pub fn program_kept_line(alloc: Global, hash: &str) -> Result<String, AllocError>
    ensures { IfOk result (λ text. string_bytes text ≡ told.program_kept_line hash.now) }
{
    let text = format!(in alloc; "program kept {hash}")?;
    Ok(text)
}

/// `program taken budget N`.
pub fn program_taken_line(alloc: Global, budget: u32) -> Result<String, AllocError>
    ensures { IfOk result (λ text. string_bytes text ≡ told.program_taken_line budget) }
{
    let text = format!(in alloc; "program taken budget {budget}")?;
    Ok(text)
}

/// `FILE WORD`, how a file's writes go.
pub fn file_line(alloc: Global, file: &str, word: &str) -> Result<String, AllocError>
    ensures { IfOk result (λ text. string_bytes text ≡ told.file_line file.now word.now) }
{
    let text = format!(in alloc; "{file} {word}")?;
    Ok(text)
}
