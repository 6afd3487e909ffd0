// A reader stands over an image and hands out one number at a time. `next` leaves the work to `number_at`, which knows of no reader.
ghost use Rattle.std.specs.Prelude.{◌≡◌};
ghost use Rattle.format.specs.Number.{number_at};
ghost use Rattle.reader.specs.Meant.{told, moved};

use crate::number::number_at;
use crate::refusal::Refusal;

// An image, and the place where the next number is due.
#[derive(Clone, Copy)]
pub struct Reader<'a> {
    pub image: &'a [u8],
    pub at: usize,
}

impl<'a> Reader<'a> {
    // A reader over an image, at a place of it or past its end.
    pub fn over(image: &'a [u8], at: usize) -> Reader<'a>
        ensures { (result.image ≡ image.entry) × (result.at ≡ at) }
    {
        Reader { image, at }
    }

    // How far the reader stands.
    pub fn stands(self) -> usize
        ensures { result ≡ self.entry.at }
    {
        self.at
    }

    // The number at the reader's place. The reader then stands behind it, or where it stood if it is refused.
    pub fn next(&mut self) -> Result<u32, Refusal>
        ensures { (told result self.new.at ≡ number_at self.old.image.now self.old.at) × (self.new ≡ moved self.old) }
    {
        let number = number_at(self.image, self.at)?;
        self.at = number.next;
        Ok(number.value)
    }
}
