// The symbols held, one line each: table, start, end and text.
use std::{fmt, io};

// The first `symbols` of the slots, oldest first.
pub fn list(out: &impl Print, input: &[u8], slots: &[u32], symbols: usize) -> io::Result<()> {
    let (slots, _) = slots.as_chunks::<3>();
    for [table, start, end] in slots.iter().take(symbols) {
        print!(out; "{table} {start} {end} ")?;
        if let Some(text) = input.get(*start as usize..*end as usize) {
            print!(out; "{}", Quoted(text))?;
        }
        println!(out)?;
    }
    Ok(())
}

// A part of the input, in quotes: bytes that can be read as they are, a quote and a backslash behind a backslash, any other in hexadecimal.
#[derive(Clone, Copy)]
struct Quoted<'a>(&'a [u8]);

impl fmt::Display for Quoted<'_> {
    fn fmt<W: fmt::Write>(&self, f: &mut fmt::Formatter<W>) -> fmt::Result {
        f.write_str("\"")?;
        for &b in self.0 {
            match b {
                b'"' | b'\\' => write!(f, "\\{}", char::from(b))?,
                b' '..=b'~' => write!(f, "{}", char::from(b))?,
                _ => write!(f, "\\x{b:02x}")?,
            }
        }
        f.write_str("\"")
    }
}
