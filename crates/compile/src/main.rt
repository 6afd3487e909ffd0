// Writes the image of a grammar's text to standard output. The text is the file that its one argument names, or `grammar`. A text that is refused
// gives nothing there; standard error says why, and where.
#![tactic(auto)]

mod fault;
mod place;
mod show;
mod state;
mod words;

use files::{TakeError, argument};
use std::io;
use std::rt::Files;

// The words are looked at as in `inspect`: one function for both would take six parameters in place of these few lines.
fn main(rt: HostRuntime) -> io::Result<()> {
    let err = rt.stderr();
    if !argument::given(&rt, 1) {
        return read(&rt, &err, b"grammar");
    }
    if argument::given(&rt, 2) {
        return err.write_all(b"usage: compile [TEXT]\n");
    }
    let mut name = [0u8; 4096];
    match argument::word(&rt, 1, &mut name) {
        Ok(length) => read(&rt, &err, &name[..length]),
        Err(why) => files::fail(&err, b"the text's name", why),
    }
}

// One byte more than a text may have is enough to see that it has too many.
fn read(rt: &(impl Files + Print), err: &impl Print, path: &[u8]) -> io::Result<()> {
    let mut text = [0u8; 65536];
    match files::take(rt, path, &mut text) {
        Ok(n) => write(rt, err, path, &text[..n]),
        Err(TakeError::Unopened(why) | TakeError::Unread(why)) => files::fail(err, path, why),
    }
}

fn write(out: &impl Print, err: &impl Print, path: &[u8], text: &[u8]) -> io::Result<()> {
    let mut image = [0u8; 16384];
    match yarnspire::compile(text, &mut image) {
        Ok(n) => out.write_all(&image[..n as usize]),
        Err(refusal) => fault::tell(err, path, text, refusal),
    }
}
