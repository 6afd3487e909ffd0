// A refusal, told to those who wrote the text.
use crate::place::Place;
use crate::show::show;
use crate::words::reason;
use std::io;
use yarnspire::TextRefusal;

// PATH:LINE:COLUMN: what is wrong, and the refusal's number. Below it the line, and a mark under the place.
pub fn tell(err: &impl Print, path: &[u8], text: &[u8], refusal: TextRefusal) -> io::Result<()> {
    let place = Place {
        text,
        at: refusal.place,
    };
    let line = place.line();
    err.write_all(path)?;
    print!(err; ":{}:{}: ", line.number, line.column)?;
    reason(err, refusal.slip, place)?;
    println!(err; " (refusal {})", refusal.slip.number())?;
    show(err, line)
}
