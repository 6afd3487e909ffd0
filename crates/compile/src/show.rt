// How a line is shown, with its place.
use crate::place::Line;
use std::io;

// The line, and below it a mark under the place. What is over 80 bytes before the place or behind it is left out. Of an empty line nothing is shown.
pub fn show(err: &impl Print, line: Line<'_>) -> io::Result<()> {
    if line.before.is_empty() && line.behind.is_empty() {
        return Ok(());
    }
    let before = &line.before[line.before.len().saturating_sub(80)..];
    let behind = line.behind.get(..80).unwrap_or(line.behind);
    print!(err; "  {}", dots(before, line.before, "  "))?;
    for b in before.iter().chain(behind) {
        shown(err, *b)?;
    }
    print!(err; "{}\n    ", dots(behind, line.behind, ""))?;
    for b in before {
        below(err, *b)?;
    }
    print!(err; "^\n")
}

// Dots where a part leaves something out of the whole.
pub fn dots<'a>(part: &[u8], whole: &[u8], none: &'a str) -> &'a str {
    if part.len() < whole.len() { ".." } else { none }
}

// A control byte is shown as a question mark, but a carriage return not at all; a tab stays one.
fn shown(err: &impl Print, b: u8) -> io::Result<()> {
    match b {
        b'\r' => Ok(()),
        b'\t' => err.write_all(b"\t"),
        0..=31 | 127 => err.write_all(b"?"),
        _ => err.write_all(&[b]),
    }
}

// The blanks below: one for each character, and a tab below a tab, so that the mark comes under its place.
fn below(err: &impl Print, b: u8) -> io::Result<()> {
    match b {
        b'\r' | 128..=191 => Ok(()),
        b'\t' => err.write_all(b"\t"),
        _ => err.write_all(b" "),
    }
}
