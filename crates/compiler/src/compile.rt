// A grammar's text compiled to its image.
ghost use Rattle.compiler.specs.Compiles.{Compiles};

use crate::image::write;
use crate::judge::judge;
use crate::refusal::{Refusal, Slip};

// Writes the image of a text that is a grammar's to the front of the lent buffer, and says how many bytes it has. A text that is refused leaves the buffer as it
// is, and so does an image for which there is no room.
pub fn compile(text: &[u8], image: &mut [u8]) -> Result<u32, Refusal>
    ensures { Compiles text.now image.old image.new result }
{
    if 65535 < text.len() {
        return Err(Refusal {
            slip: Slip::Unread,
            place: 65535,
        });
    }
    judge(text)?;
    write(text, image)
}
