// A number of an image within its range. Every number that this crate reads is handed out by a reader, and judged here.
ghost use Rattle.std.specs.Prelude.{◌<◌, ◌≤◌, IfOk};
ghost use Rattle.format.specs.Image.{bounded};
ghost use Rattle.reader.specs.Meant.{number_of, Reads};

use reader::{Fault, Reader, Refusal};
use std::ops::Range;

// The next number if it is in a range; else the fault `why`, at that number's place. After a refusal the reader stands where it stood.
pub fn bounded(reader: &mut Reader, range: Range<u32>, why: Fault) -> Result<u32, Refusal>
    ensures reads { Reads (bounded reader.old.image.now (number_of why) range.start range.end) reader.old reader.new result }
    ensures within { IfOk result (λ n. (range.start ≤ n) × (n < range.end)) }
{
    let place = reader.stands();
    let n = reader.next()?;
    if range.contains(&n) {
        return Ok(n);
    }
    reader.at = place;
    Err(why.at(place))
}
