// What may be wrong with an image, and where it is.
ghost use Rattle.std.specs.Prelude.{◌≡◌, Some};
ghost use Rattle.reader.specs.Meant.{number_of};
ghost use Rattle.reader.specs.Words.{words_of};

use std::fmt;

// The faults of an image: 1 to 8 of document 01's table, in its order.
#[derive(Clone, Copy, Debug, PartialEq, Eq)]
pub enum Fault {
    TooLong,
    Cut,
    BadNumber,
    Edition,
    Counts,
    Tag,
    Range,
    Trailing,
}

impl Fault {
    // The number that document 01 gives it.
    pub fn number(self) -> u32
        ensures { result ≡ number_of self }
    {
        match self {
            Fault::TooLong => 1,
            Fault::Cut => 2,
            Fault::BadNumber => 3,
            Fault::Edition => 4,
            Fault::Counts => 5,
            Fault::Tag => 6,
            Fault::Range => 7,
            Fault::Trailing => 8,
        }
    }

    // The refusal of this fault at a place.
    pub fn at(self, place: usize) -> Refusal
        ensures { (result.fault ≡ self) × (result.place ≡ place) }
    {
        Refusal { fault: self, place }
    }
}

impl fmt::Display for Fault {
    ghost output = { λ fault. Some (words_of fault) };

    fn fmt<W: fmt::Write>(&self, f: &mut fmt::Formatter<W>) -> fmt::Result {
        f.write_str(match self {
            Fault::TooLong => "the image is over 16,384 bytes",
            Fault::Cut => "the image ends too early",
            Fault::BadNumber => "a number is badly written",
            Fault::Edition => "the edition is not 1",
            Fault::Counts => "too many tables, conditions or nodes, or no node",
            Fault::Tag => "no kind has this tag",
            Fault::Range => "a start, pattern or operand is outside its range",
            Fault::Trailing => "bytes after the last node",
        })
    }
}

// The first fault of an image, and its place.
#[derive(Clone, Copy, Debug, PartialEq, Eq)]
pub struct Refusal {
    pub fault: Fault,
    pub place: usize,
}
