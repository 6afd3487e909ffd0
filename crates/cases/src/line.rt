// Runs the cases that are lines of text.
use crate::read::case_of;
use crate::show::check;
use std::io;

// Every line.
pub fn each(out: &impl Print, lines: &[u8]) -> io::Result<()> {
    for line in lines.split(|b| *b == b'\n') {
        run(out, line)?;
    }
    Ok(())
}

// A line that begins with no such letter is a comment.
fn run(out: &impl Print, line: &[u8]) -> io::Result<()> {
    let mut image = [0u8; 64];
    let mut input = [0u8; 64];
    let case = case_of(line, &mut image, &mut input);
    match line.first() {
        Some(b'c') => check(out, case.name, case.image),
        Some(b'r') => case.recognise(out),
        Some(b't') => case.text(out),
        _ => Ok(()),
    }
}
