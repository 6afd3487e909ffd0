// A place in a text, and the line that it is in.
ghost use Rattle.std.specs.Prelude.{◌≡◌, drop};

#[derive(Clone, Copy)]
pub struct Place<'a> {
    pub text: &'a [u8],
    pub at: usize,
}

// The line's number and the place's column in it, both from 1 and the column in characters; and what the line has before the place and behind it.
#[derive(Clone, Copy)]
pub struct Line<'a> {
    pub number: usize,
    pub column: usize,
    pub before: &'a [u8],
    pub behind: &'a [u8],
}

impl<'a> Place<'a> {
    // The text from the place on.
    pub fn rest(self) -> &'a [u8]
        ensures { result.now ≡ drop self.entry.at self.entry.text.now }
    {
        self.text.get(self.at..).unwrap_or(&[])
    }

    // The text's end is in its last line.
    pub fn line(self) -> Line<'a> {
        let front = self.text.get(..self.at).unwrap_or(self.text);
        let before = front.rsplit(ends_line).next().unwrap_or(front);
        let rest = self.rest();
        Line {
            number: front.iter().filter(|b| ends_line(b)).count() + 1,
            column: before.iter().filter(|b| begins(b)).count() + 1,
            before,
            behind: rest.split(ends_line).next().unwrap_or(rest),
        }
    }
}

fn ends_line(b: &u8) -> bool {
    *b == b'\n'
}

// The second byte of a letter beyond ASCII, and those behind it, begin no character.
fn begins(b: &u8) -> bool {
    !matches!(*b, 128..=191)
}
