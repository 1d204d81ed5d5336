//! Standard input, parted into a program's text and its input lines.
ghost use Rattle.std.specs.Prelude.{◌≡◌, ◌≤◌, ◌<◌, ◌++◌, length, drop, take, IsTrue, ◌↔◌};
ghost use Rattle.std.specs.List.{list_all};
ghost use Rattle.std.specs.Str.{IsCharBoundary, IsUtf8};
ghost use Rattle.commands.specs.Input as input;

/// The length of the program text at the front of what was read: its lines up to the first whose
/// only word is END_PROGRAM, that one with its end; all of it where there is no such line.
pub(crate) fn program_length(text: &[u8]) -> usize
    ensures within { result ≤ length text.now }
    ensures boundary { IsUtf8 text.now → IsCharBoundary text.now result }
    ensures program { take result text.now ≡ input.program_text text.now }
    ensures rest { input.lines_of (drop result text.now) ≡ input.input_lines (input.lines_of text.now) }
{
    let mut rest = text;
    while !rest.is_empty() {
        let (line, behind) = rest.split_at(line_length(rest));
        if is_last_line(line) {
            return text.len() - behind.len();
        }
        rest = behind;
    }
    text.len()
}

/// The length of the first line, with its end.
pub(crate) fn line_length(text: &[u8]) -> usize
    ensures exact { result ≡ input.line_length text.now }
    ensures within { result ≤ length text.now }
{
    let mut count = 0;
    let mut rest = text;
    while let [byte, behind @ ..] = rest {
        count += 1;
        if *byte == b'\n' {
            return count;
        }
        rest = behind;
    }
    count
}

/// Whether the only word of a line is END_PROGRAM, in any case.
fn is_last_line(line: &[u8]) -> bool
    ensures { result ≡ input.is_last_line line.now }
{
    trimmed(line).eq_ignore_ascii_case(b"END_PROGRAM")
}

/// What stands on a line between blanks.
fn trimmed(line: &[u8]) -> &[u8]
    ensures { result.now ≡ input.trimmed line.now }
{
    before_blanks(past_blanks(before_end(line)))
}

/// A line without its end.
pub(crate) fn before_end(line: &[u8]) -> &[u8]
    ensures { result.now ≡ input.before_end line.now }
{
    match line.strip_suffix(b"\r\n") {
        Some(text) => text,
        None => line.strip_suffix(b"\n").unwrap_or(line),
    }
}

fn past_blanks(line: &[u8]) -> &[u8]
    ensures { result.now ≡ input.past_blanks line.now }
{
    let mut rest = line;
    while let [first, behind @ ..] = rest {
        if !is_blank(*first) {
            break;
        }
        rest = behind;
    }
    rest
}

fn before_blanks(line: &[u8]) -> &[u8]
    ensures { result.now ≡ input.before_blanks line.now }
{
    let mut rest = line;
    while let [before @ .., last] = rest {
        if !is_blank(*last) {
            break;
        }
        rest = before;
    }
    rest
}

fn is_blank(byte: u8) -> bool
    ensures { result ≡ input.is_blank byte }
{
    byte == b' ' || byte == b'\t'
}

/// Whether there is no word on a line.
pub(crate) fn is_blank_line(line: &[u8]) -> bool
    ensures { result ≡ input.is_blank_line line.now }
{
    before_end(line).iter().all(|byte| is_blank(*byte))
}

/// On which of the lines, counted from 1, the input line of a number stands: blank lines are none.
pub(crate) fn input_line(lines: &[u8], number: usize) -> u32 {
    let mut place = 0u32;
    let mut seen = 0usize;
    let mut rest = lines;
    for _ in 0..lines.len() {
        let (line, behind) = rest.split_at(line_length(rest));
        place = place.saturating_add(1);
        if !is_blank_line(line) {
            seen = seen.saturating_add(1);
        }
        if seen == number {
            return place;
        }
        rest = behind;
    }
    place
}
