// Reading a file whole, into a buffer that the caller lends; the words that a program was started with; and saying why something failed.
#![tactic(auto)]

pub mod argument;

ghost use Rattle.std.specs.Prelude.{◌≤◌};
ghost use Rattle.std.specs.Io.{WritesAtMost};

use std::fs::File;
use std::io::{ErrorKind, Read, Write};
use std::rt::Files;
use std::{io, str};

// Why a file was not read: it could not be opened, or a read failed.
#[derive(Clone, Copy, Debug)]
pub enum TakeError {
    Unopened(io::Error),
    Unread(io::Error),
}

// Reads the file of this name up to its end or until the buffer is full, and gives how many bytes are at the buffer's start. A read that gives fewer
// bytes than were asked for is not the end, and one that fails is not either. A name that is not UTF-8 cannot be opened.
pub fn take(files: &impl Files, path: &[u8], buf: &mut [u8]) -> Result<usize, TakeError>
    ensures { WritesAtMost result buf.new }
{
    let mut file = open(files, path).map_err(TakeError::Unopened)?;
    read_all(&mut file, buf).map_err(TakeError::Unread)
}

fn open<F: Files>(files: &F, path: &[u8]) -> io::Result<F::File> {
    match str::from_utf8(path) {
        Ok(name) => File::open(files, name),
        Err(_) => Err(io::Error::from(ErrorKind::InvalidFilename)),
    }
}

// The place moves by what each read gives: no `for` counts it.
fn read_all(file: &mut impl Read, buf: &mut [u8]) -> io::Result<usize>
    ensures { WritesAtMost result buf.new }
{
    let end = buf.len();
    let mut done = 0;
    while done < end {
        let n = file.read(&mut buf[done..])?;
        if n == 0 {
            break;
        }
        done += n;
    }
    Ok(done)
}

// Says that this failed, and why: `WHAT: No such file or directory`.
pub fn fail(err: &impl Print, what: &[u8], why: io::Error) -> io::Result<()> {
    let mut room = [0u8; 256];
    err.write_all(what)?;
    err.write_all(b": ")?;
    err.write_all(words(why, &mut room))?;
    err.write_all(b"\n")
}

// The system's words, as far as there is room. The error's number, which std writes behind them, as in `Is a directory (os error 21)`, is left out.
fn words<'a>(why: io::Error, room: &'a mut [u8; 256]) -> &'a [u8] {
    let mut rest = &mut room[..];
    let _ = write!(rest, "{why}");
    let left = rest.len();
    let text = &room[..256usize.saturating_sub(left)];
    let number = b" (os error ".as_slice();
    match text.windows(number.len()).position(|part| part == number) {
        Some(end) => &text[..end],
        None => text,
    }
}
