// Runs document 01's cases through the public functions of `yarnspire`, one line each: its name, the answer, and the nine slot numbers lent, each 7
// before the call. The cases are lines of the file `cases`, and a few that are too large for a line. What each must give is in `stdout`.
#![tactic(auto)]

mod large;
mod line;
mod read;
mod show;

use files::TakeError;
use std::io;

fn main(rt: HostRuntime) -> io::Result<()> {
    let err = rt.stderr();
    let mut cases = [0u8; 131072];
    match files::take(&rt, b"cases", &mut cases) {
        Ok(n) => line::each(&rt, &cases[..n])?,
        Err(TakeError::Unopened(why) | TakeError::Unread(why)) => {
            files::fail(&err, b"cases", why)?
        }
    }
    large::all(&rt)
}
