// The words that a program was started with.
ghost use Rattle.std.specs.Io.{WritesAtMost};

use std::env::{Env, FillError};
use std::io;

// What the system calls a name that does not fit, and a word that is not there.
const TOO_LONG: i32 = 36;

const MISSING: i32 = 22;

// Whether there is such a word; word 0 is the program's own name.
pub fn given(env: &impl Env, i: usize) -> bool {
    !matches!(env.arg(i, &mut []), Err(FillError::NotPresent))
}

// Puts the word at the start of the buffer, and gives its length.
pub fn word(env: &impl Env, i: usize, buf: &mut [u8]) -> io::Result<usize>
    ensures { WritesAtMost result buf.new }
{
    env.arg(i, buf).map_err(error_of)
}

fn error_of(why: FillError) -> io::Error {
    io::Error::from_raw_os_error(match why {
        FillError::TooLong => TOO_LONG,
        FillError::NotPresent => MISSING,
    })
}
