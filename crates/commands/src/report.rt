//! The lines that the commands print.
ghost use Rattle.std.specs.Prelude.{◌≡◌, ◌++◌, OnOk, IfOk, codes, string_bytes};
ghost use Rattle.std.specs.Fmt.{decimal};
ghost use Rattle.commands.specs.Probe as probe;
ghost use Rattle.commands.specs.Report as report;

use note_text::escaped;
use point_types::{IlType, Name};
use register_map::Block;
use std::alloc::{AllocError, Global};

/// A value as it is printed: TRUE or FALSE for a BOOL, else a decimal.
pub fn shown(alloc: Global, kind: IlType, number: i64) -> Result<String, AllocError>
    ensures ok { IfOk result (λ text. string_bytes text ≡ report.shown kind number) }
{
    match kind {
        IlType::Bool if number == 1 => "TRUE".to_string(alloc),
        IlType::Bool => "FALSE".to_string(alloc),
        _ => number.to_string(alloc),
    }
}

/// Appends the line NAME=VALUE.
pub(crate) fn push_named(lines: &mut Vec<u8>, name: &Name, value: &str) -> Result<(), AllocError>
    ensures ok { OnOk result (lines.new.items ≡ lines.old.items ++ report.named_line name.now value.now) }
{
    lines.extend_from_slice(name.as_bytes())?;
    lines.push(b'=')?;
    lines.extend_from_slice(value.as_bytes())?;
    lines.push(b'\n')?;
    Ok(())
}

/// Appends the line `steps N`.
pub(crate) fn push_steps(lines: &mut Vec<u8>, alloc: Global, steps: u32) -> Result<(), AllocError>
    ensures ok { OnOk result (lines.new.items ≡ lines.old.items ++ report.steps_line steps) }
{
    let line = format!(in alloc; "steps {steps}\n")?;
    lines.extend_from_slice(line.as_bytes())?;
    Ok(())
}

/// Appends the line `trap KIND at N`.
pub(crate) fn push_trap(
    lines: &mut Vec<u8>,
    alloc: Global,
    kind: &str,
    at: u32,
) -> Result<(), AllocError>
    ensures ok { OnOk result (lines.new.items ≡ lines.old.items ++ report.trap_line kind.now at) }
{
    let line = format!(in alloc; "trap {kind} at {at}\n")?;
    lines.extend_from_slice(line.as_bytes())?;
    Ok(())
}

/// The line `refused: read KIND line N`.
pub fn unread(alloc: Global, kind: &str, line: u32) -> Result<String, AllocError>
    ensures ok { IfOk result (λ text. string_bytes text ≡ report.unread_line kind.now line) }
{
    let text = format!(in alloc; "refused: read {kind} line {line}\n")?;
    Ok(text)
}

/// The line `refused: assemble KIND line N`.
pub(crate) fn unassembled(alloc: Global, kind: &str, line: u32) -> Result<String, AllocError>
    ensures ok { IfOk result (λ text. string_bytes text ≡ report.unassembled_line kind.now line) }
{
    let text = format!(in alloc; "refused: assemble {kind} line {line}\n")?;
    Ok(text)
}

/// The line `refused: input K`, of the K-th input line.
pub(crate) fn bad_input(alloc: Global, number: usize) -> Result<String, AllocError>
    ensures ok { IfOk result (λ text. string_bytes text ≡ report.bad_input_line number) }
{
    let text = format!(in alloc; "refused: input {number}\n")?;
    Ok(text)
}

/// The line of a word after these.
fn with_word(alloc: Global, before: &str, word: &str) -> Result<String, AllocError>
    ensures ok { IfOk result (λ text. string_bytes text ≡ report.line_of (before.now ++ word.now)) }
{
    let text = format!(in alloc; "{before}{word}\n")?;
    Ok(text)
}

/// The line `refused: definition KIND`.
pub(crate) fn undefined(alloc: Global, kind: &str) -> Result<String, AllocError>
    ensures ok { IfOk result (λ text. string_bytes text ≡ report.bad_definition_line kind.now) }
{
    with_word(alloc, "refused: definition ", kind)
}

/// The line `refused: site KIND`.
pub(crate) fn no_site(alloc: Global, kind: &str) -> Result<String, AllocError>
    ensures ok { IfOk result (λ text. string_bytes text ≡ report.bad_site_line kind.now) }
{
    with_word(alloc, "refused: site ", kind)
}

/// The lines `accepted` and `budget N`.
pub fn accepted(alloc: Global, budget: u32) -> Result<String, AllocError>
    ensures ok { IfOk result (λ text. string_bytes text ≡ report.accepted_lines budget) }
{
    let text = format!(in alloc; "accepted\nbudget {budget}\n")?;
    Ok(text)
}

/// The line `refused: verify KIND at N`.
pub(crate) fn unverified(alloc: Global, kind: &str, at: usize) -> Result<String, AllocError>
    ensures ok { IfOk result (λ text. string_bytes text ≡ report.unverified_line kind.now at) }
{
    let text = format!(in alloc; "refused: verify {kind} at {at}\n")?;
    Ok(text)
}

/// The line `refused: plant KIND`.
pub(crate) fn no_plant(alloc: Global, kind: &str) -> Result<String, AllocError>
    ensures ok { IfOk result (λ text. string_bytes text ≡ report.bad_plant_line kind.now) }
{
    with_word(alloc, "refused: plant ", kind)
}

/// The line `listening PORT`.
pub fn listening(alloc: Global, port: u16) -> Result<String, AllocError>
    ensures ok { IfOk result (λ text. string_bytes text ≡ report.listening_line port) }
{
    let text = format!(in alloc; "listening {port}\n")?;
    Ok(text)
}

/// The line `link: KIND`.
pub(crate) fn link_failed(alloc: Global, kind: &str) -> Result<String, AllocError>
    ensures ok { IfOk result (λ text. string_bytes text ≡ report.link_line kind.now) }
{
    with_word(alloc, "link: ", kind)
}

/// The line `refused: file PATH`.
pub(crate) fn unusable(alloc: Global, path: &str) -> Result<String, AllocError>
    ensures ok { IfOk result (λ text. string_bytes text ≡ report.unusable_line path.now) }
{
    with_word(alloc, "refused: file ", path)
}

/// The line `refused: map KIND`.
pub(crate) fn no_map(alloc: Global, kind: &str) -> Result<String, AllocError>
    ensures ok { IfOk result (λ text. string_bytes text ≡ report.bad_map_line kind.now) }
{
    with_word(alloc, "refused: map ", kind)
}

/// Appends the line `model ID ADDR LENGTH`.
pub fn push_model(lines: &mut Vec<u8>, alloc: Global, block: &Block) -> Result<(), AllocError>
    ensures ok { OnOk result (lines.new.items ≡ lines.old.items ++ probe.model_line block.now) }
{
    let place = format!(in alloc; "model {} {}", block.id, block.addr)?;
    let length = format!(in alloc; " {}\n", block.length)?;
    lines.extend_from_slice(place.as_bytes())?;
    lines.extend_from_slice(length.as_bytes())?;
    Ok(())
}

/// Appends the line `NAME NUMBER`, with the name's control characters escaped.
pub(crate) fn push_point(
    lines: &mut Vec<u8>,
    alloc: Global,
    name: &str,
    number: i128,
) -> Result<(), AllocError>
    ensures ok { OnOk result (lines.new.items ≡ lines.old.items ++ probe.point_line name.now number) }
{
    let name = escaped(alloc, name)?;
    let line = format!(in alloc; " {number}\n")?;
    lines.extend_from_slice(name.as_bytes())?;
    lines.extend_from_slice(line.as_bytes())?;
    Ok(())
}

/// Appends the line `end ADDR`.
pub(crate) fn push_end(lines: &mut Vec<u8>, alloc: Global, addr: u16) -> Result<(), AllocError>
    ensures ok { OnOk result (lines.new.items ≡ lines.old.items ++ probe.end_line addr) }
{
    let line = format!(in alloc; "end {addr}\n")?;
    lines.extend_from_slice(line.as_bytes())?;
    Ok(())
}

/// The line `refused: core KIND`.
pub fn no_core(alloc: Global, kind: &str) -> Result<String, AllocError>
    ensures ok { IfOk result (λ text. string_bytes text ≡ report.bad_core_line kind.now) }
{
    with_word(alloc, "refused: core ", kind)
}
