//! The command `explain` with a trace of a run.
use crate::file_command::{FileCommand, obey_on};
use command_files::{RunRuntime, TraceFault, TracedSpans, variables_of};
use commands::{accept, tell_no_memory, write_lines};
use point_types::Var;
use refusal_notes::{Notes, escaped};
use std::alloc::{AllocError, Global};
use std::io::Write;
use std::time::Clock;

/// A trace, as it was read.
#[derive(Clone, Copy)]
pub(crate) struct TraceText<'p, 't> {
    pub path: &'p str,
    pub text: &'t str,
}

/// Explains a program, and tells then which numbers its variables had in a trace. A text that is no trace is refused before.
/// Gives the status.
pub(crate) fn explain_with<R: RunRuntime + Clock, W: Write>(
    rt: &R,
    alloc: Global,
    command: FileCommand<'_>,
    notes: &Notes<'_>,
    trace: TraceText<'_, '_>,
    out: &mut W,
) -> u8 {
    match TracedSpans::read(alloc, trace.text) {
        Ok(spans) => match obey_on(rt, alloc, "", command, notes, out) {
            0 => tell_spans(rt, alloc, notes, trace.path, &spans, out),
            status => status,
        },
        Err(TraceFault::OutOfMemory) => tell_no_memory(out),
        Err(TraceFault::Row(row)) => tell_bad_trace(rt, alloc, notes, trace.path, row, out),
    }
}

/// Tells what the variables of an accepted program had, and on standard error which ones of the trace it doesn't have.
fn tell_spans<R: Eprint + AllocGlobal, W: Write>(
    rt: &R,
    alloc: Global,
    notes: &Notes<'_>,
    path: &str,
    spans: &TracedSpans,
    out: &mut W,
) -> u8 {
    let Ok(Ok(accepted)) = accept(alloc, notes.site, notes.program, notes.defs) else {
        return tell_no_memory(out);
    };
    let vars = variables_of(&accepted);
    match span_lines(alloc, path, vars, spans) {
        Ok(lines) => {
            let status = write_lines(out, lines.as_bytes(), 0);
            if !notes.quiet {
                tell_others(rt, alloc, path, vars, spans);
            }
            status
        }
        Err(AllocError) => tell_no_memory(out),
    }
}

/// A line for the trace, and one for each variable of a program: what it had, and what it may have.
fn span_lines(
    alloc: Global,
    path: &str,
    vars: &[Var],
    spans: &TracedSpans,
) -> Result<String, AllocError> {
    let path = escaped(alloc, path)?;
    let (path, scans) = (path.as_str(), spans.scans);
    let mut lines = format!(in alloc; "trace {path}: {scans} scans\n")?;
    for var in vars {
        let line = span_line(alloc, var, spans)?;
        lines.push_str(line.as_str())?;
    }
    Ok(lines)
}

fn span_line(alloc: Global, var: &Var, spans: &TracedSpans) -> Result<String, AllocError> {
    let (name, low, high) = (var.name.as_str(), var.low, var.high);
    let Some(traced) = spans.variable(name) else {
        return format!(in alloc; "had {name} not traced, of {low}..{high}\n");
    };
    match traced.had {
        Some(had) => {
            let (least, most) = (had.low, had.high);
            format!(in alloc; "had {name} {least}..{most} of {low}..{high}\n")
        }
        None => format!(in alloc; "had {name} no number, of {low}..{high}\n"),
    }
}

/// Tells which variables of a trace a program doesn't have.
fn tell_others<R: Eprint + AllocGlobal>(
    rt: &R,
    alloc: Global,
    path: &str,
    vars: &[Var],
    spans: &TracedSpans,
) {
    for traced in spans.variables.iter() {
        let name = traced.name.as_str();
        if !vars.iter().any(|it| it.name.as_str() == name) {
            if let Ok(note) = other_note(alloc, path, name) {
                let _ = rt.eprint(note.as_str());
            }
        }
    }
}

fn other_note(alloc: Global, path: &str, name: &str) -> Result<String, AllocError> {
    let (path, name) = (escaped(alloc, path)?, escaped(alloc, name)?);
    let (path, name) = (path.as_str(), name.as_str());
    format!(in alloc;
        "{path}: {name} is no variable of this program\n  help: was the trace made by another one, or before a change?\n"
    )
}

/// Tells which row of a trace isn't one, with a note on it, and gives the status.
fn tell_bad_trace<R: Eprint + AllocGlobal, W: Write>(
    rt: &R,
    alloc: Global,
    notes: &Notes<'_>,
    path: &str,
    row: usize,
    out: &mut W,
) -> u8 {
    let Ok(text) = refusal(alloc, row) else {
        return tell_no_memory(out);
    };
    let status = write_lines(out, text.as_bytes(), 1);
    if !notes.quiet {
        if let Ok(note) = row_note(alloc, path, row) {
            let _ = rt.eprint(note.as_str());
        }
    }
    status
}

fn refusal(alloc: Global, row: usize) -> Result<String, AllocError> {
    format!(in alloc; "refused: trace row {row}\n")
}

fn row_note(alloc: Global, path: &str, row: usize) -> Result<String, AllocError> {
    let path = escaped(alloc, path)?;
    let path = path.as_str();
    format!(in alloc;
        "{path}:{row}: isn't a row of a trace\n  help: hand in a file that run --trace wrote\n"
    )
}
