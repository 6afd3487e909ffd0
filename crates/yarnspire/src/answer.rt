// What recognise answers.
ghost use Rattle.std.specs.Prelude.{◌≡◌};
ghost use Rattle.yarnspire.specs.Answer.{refusal_number};

use parts::outcome::Stop;
use reader::Fault;

// Why there is neither accepted nor failed, in the order in which it is seen: the image has a fault; the input is over 65,535 bytes; a limit is outside its
// range; too few slots are lent; or what stopped the run.
#[derive(Clone, Copy, PartialEq, Eq, Debug)]
pub enum Refusal {
    Image(Fault),
    Input,
    Limits,
    Slots,
    Run(Stop),
}

impl Refusal {
    // Its number in 01's table of refusals, 1 to 15.
    pub fn number(self) -> u32
        ensures { result ≡ refusal_number self }
    {
        match self {
            Refusal::Image(fault) => fault.number(),
            Refusal::Input => 9,
            Refusal::Limits => 10,
            Refusal::Slots => 11,
            Refusal::Run(stop) => stop.number(),
        }
    }
}

// Accepted, with how many bytes of the input and how many symbols the slots then hold; failed; or refused, with the reason and a place. Each with the steps and
// the greatest depth, as far as charged.
#[derive(Clone, Copy, PartialEq, Eq, Debug)]
pub enum Answer {
    Accepted {
        consumed: u32,
        steps: u32,
        depth: u32,
        symbols: u32,
    },
    Failed {
        steps: u32,
        depth: u32,
    },
    Refused {
        refusal: Refusal,
        place: u32,
        steps: u32,
        depth: u32,
    },
}
