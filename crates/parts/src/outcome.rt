// What an expression comes to, and what it starts from, in one number.
ghost use Rattle.std.specs.Prelude.{◌≡◌, true, ◌+◌, ◌/◌, ◌≤◌, ◌<◌};
ghost use Rattle.format.specs.Reading.{pick};
ghost use Rattle.parts.specs.Made.{Made};

// What stops a run: the step limit, the depth limit, no room for a symbol, or a round that consumed nothing.
#[derive(Clone, Copy, PartialEq, Eq, Debug)]
pub enum Stop {
    Steps,
    Depth,
    Room,
    Round,
}

impl Stop {
    ghost use Rattle.parts.specs.Packed.{number_of, stop_of};

    // Its number in 01's table of refusals.
    pub fn number(self) -> u32
        ensures { result ≡ number_of self }
    {
        match self {
            Stop::Steps => 12,
            Stop::Depth => 13,
            Stop::Room => 14,
            Stop::Round => 15,
        }
    }

    // What has a number in that table.
    fn of(number: u64) -> Stop
        ensures { result ≡ stop_of number }
    {
        match number {
            12 => Stop::Steps,
            13 => Stop::Depth,
            14 => Stop::Room,
            _ => Stop::Round,
        }
    }
}

// Passed, at a place and with so many symbols held; failed; or refused, by what stopped the run and at a place. With the steps spent and the
// greatest depth entered so far.
#[derive(Clone, Copy)]
pub enum Outcome {
    Passed {
        at: u32,
        held: u32,
        steps: u32,
        depth: u32,
    },
    Failed {
        steps: u32,
        depth: u32,
    },
    Refused {
        stop: Stop,
        place: u32,
        steps: u32,
        depth: u32,
    },
}

// An outcome in one number, which takes one register: place in 16 bits, symbols held in 9, depth in 9, steps in 26, kind above. A passed outcome is
// what the next expression starts from. No other kind is made than 0, which passed, 1, which failed, and 12 to 15, the numbers of what stops a run.
#[derive(Clone, Copy, PartialEq, Eq, Debug)]
pub struct Packed {
    pub bits: u64,
    pub ghost made: { Made (bits / 1152921504606846976) },
}

impl Packed {
    ghost use Rattle.parts.specs.Packed.{packed, at_of, held_of, steps_of, depth_of, opened_of};

    // The parts of an outcome in one number. The kind is the highest part of it: 0, 1 or the number of what stopped the run.
    fn shut(kind: u32, at: u32, held: u32, steps: u32, depth: u32) -> u64
        requires { (kind < 16) × (at ≤ 65535) × (held ≤ 256) × (steps ≤ 1000000) × (depth ≤ 256) }
        ensures { result ≡ packed kind at held steps depth }
    {
        u64::from(at)
            + u64::from(held) * 65536
            + u64::from(depth) * 33554432
            + u64::from(steps) * 17179869184
            + u64::from(kind) * 1152921504606846976
    }

    pub fn passed(at: u32, held: u32, steps: u32, depth: u32) -> Packed
        requires { (at ≤ 65535) × (held ≤ 256) × (steps ≤ 1000000) × (depth ≤ 256) }
        ensures { opened_of result ≡ Outcome.Passed at held steps depth }
    {
        Packed {
            bits: Packed::shut(0, at, held, steps, depth),
        }
    }

    pub fn failed(steps: u32, depth: u32) -> Packed
        requires { (steps ≤ 1000000) × (depth ≤ 256) }
        ensures { opened_of result ≡ Outcome.Failed steps depth }
    {
        Packed {
            bits: Packed::shut(1, 0, 0, steps, depth),
        }
    }

    pub fn refused(stop: Stop, place: u32, steps: u32, depth: u32) -> Packed
        requires { (place ≤ 65535) × (steps ≤ 1000000) × (depth ≤ 256) }
        ensures { opened_of result ≡ Outcome.Refused stop place steps depth }
    {
        Packed {
            bits: Packed::shut(stop.number(), place, 0, steps, depth),
        }
    }

    // What it is opened to.
    pub fn opened(self) -> Outcome
        ensures { result ≡ opened_of self }
    {
        let at = self.at();
        let depth = self.depth();
        if self.bits < 1152921504606846976 {
            return Outcome::Passed {
                at,
                held: self.held(),
                steps: self.steps(),
                depth,
            };
        }
        let steps = (self.bits / 17179869184 % 67108864) as u32;
        if self.bits < 2305843009213693952 {
            return Outcome::Failed { steps, depth };
        }
        Outcome::Refused {
            stop: Stop::of(self.bits / 1152921504606846976),
            place: at,
            steps,
            depth,
        }
    }

    // What a passed outcome has of each part:
    pub fn at(self) -> u32
        ensures { result ≡ at_of self }
    {
        (self.bits % 65536) as u32
    }

    pub fn held(self) -> u32
        ensures { result ≡ held_of self }
    {
        (self.bits / 65536 % 512) as u32
    }

    pub fn depth(self) -> u32
        ensures { result ≡ depth_of self }
    {
        (self.bits / 33554432 % 512) as u32
    }

    pub fn steps(self) -> u32
        ensures { result ≡ steps_of self }
    {
        (self.bits / 17179869184) as u32
    }

    // Refused where an expression would have started. The symbols held stay in the number, and no refusal is opened with them.
    pub fn stopped(self, stop: Stop) -> Packed
        requires { steps_of self ≤ 1000000 }
        ensures { opened_of result ≡ Outcome.Refused stop (at_of self) (steps_of self) (depth_of self) }
    {
        Packed {
            bits: self.bits + u64::from(stop.number()) * 1152921504606846976,
        }
    }

    // One byte further, with what else there is as it is; or failed.
    pub fn onward(self, ok: bool) -> Packed
        requires { (ok ≡ true → at_of self + 1 ≤ 65535) × (steps_of self ≤ 1000000) }
        ensures { opened_of result ≡ pick ok (Outcome.Passed (at_of self + 1) (held_of self) (steps_of self) (depth_of self)) (Outcome.Failed (steps_of self) (depth_of self)) }
    {
        if ok {
            return Packed {
                bits: self.bits + 1,
            };
        }
        Packed {
            bits: self.bits / 33554432 * 33554432 + 1152921504606846976,
        }
    }
}
