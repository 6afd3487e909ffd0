// Why a text is refused, and where.
ghost use Rattle.std.specs.Prelude.{◌≡◌};
ghost use Rattle.compiler.specs.Refusals.{number_of, unread};

use walker::walk::Unread;

// What is wrong with a text, in the order in which the rules go by it: it is not of the notation or too long; a name is not defined; a name is defined twice; a
// table has two patterns; the grammar is past a limit; there is no room for its image.
#[derive(Clone, Copy, Debug, PartialEq, Eq)]
pub enum Slip {
    Unread,
    Undefined,
    Twice,
    Unlike,
    OverLimit,
    NoRoom,
}

impl Slip {
    // The number by which 02 calls it.
    pub fn number(self) -> u32
        ensures { result ≡ number_of self }
    {
        match self {
            Slip::Unread => 20,
            Slip::Undefined => 21,
            Slip::Twice => 22,
            Slip::Unlike => 23,
            Slip::OverLimit => 24,
            Slip::NoRoom => 25,
        }
    }
}

// A slip, and the place in the text where it is.
#[derive(Clone, Copy, Debug, PartialEq, Eq)]
pub struct Refusal {
    pub slip: Slip,
    pub place: usize,
}

impl From<Unread> for Refusal {
    ghost from_gives = { λ u r. r ≡ unread u };

    fn from(stop: Unread) -> Refusal {
        Refusal {
            slip: Slip::Unread,
            place: stop.at,
        }
    }
}
