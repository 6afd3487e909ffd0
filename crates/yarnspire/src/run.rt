// The run behind the entry checks.
ghost use Rattle.std.specs.Prelude.{◌≡◌, ◌++◌, ◌-◌, length, take, replicate};
ghost use Rattle.meaning.specs.Recognise.{allowed as Recognise·allowed};
ghost use Rattle.parts.specs.Packed.{opened_of};
ghost use Rattle.yarnspire.specs.Ended.{answer_for, kept_of, Kept, Runs, Ran};

use crate::answer::{Answer, Refusal};
use kinds::state::State;
use machine::evaluate::{DEPTH_LIMIT, Machine};
use parts::outcome::{Outcome, Packed};

// The limits of a run: 01's B, D and R.
#[derive(Clone, Copy, PartialEq, Eq, Debug)]
pub struct Limits {
    pub steps: u32,
    pub depth: u32,
    pub room: u32,
}

impl Limits {
    // The greatest limits there are.
    pub const GREATEST: Limits = Limits {
        steps: 1000000,
        depth: 256,
        room: 256,
    };
}

// Whether each limit is within its range.
pub(crate) fn allowed(limits: Limits) -> bool
    ensures { result ≡ Recognise·allowed limits.steps limits.depth limits.room }
{
    matches!(limits.steps, 1..=1000000) && matches!(limits.depth, 1..=256) && limits.room <= 256
}

// What an outcome answers; the slots get its symbols from the store, and zeros follow.
fn ended(slots: &mut [u32], store: &[u32; 768], r: Packed) -> Answer
    requires { Kept (length slots.old) (opened_of r) }
    ensures { (result ≡ answer_for (opened_of r)) × (slots.new ≡ take (kept_of (opened_of r)) store.now ++ replicate (length slots.old - kept_of (opened_of r)) 0) }
{
    match r.opened() {
        Outcome::Passed {
            at,
            held,
            steps,
            depth,
        } => {
            let kept = (held * 3) as usize;
            let (front, rest) = slots.split_at_mut(kept);
            front.copy_from_slice(&store[..kept]);
            rest.fill(0);
            Answer::Accepted {
                consumed: at,
                steps,
                depth,
                symbols: held,
            }
        }
        Outcome::Failed { steps, depth } => {
            slots.fill(0);
            Answer::Failed { steps, depth }
        }
        Outcome::Refused {
            stop,
            place,
            steps,
            depth,
        } => {
            slots.fill(0);
            Answer::Refused {
                refusal: Refusal::Run(stop),
                place,
                steps,
                depth,
            }
        }
    }
}

// Runs the start node from the input's start, with every condition true and no symbol held. The evaluator works on arrays of a fixed length, which
// reach it without a length beside them: the image's bytes, and a store with room for every symbol that may be held. The limits' ranges leave a step and
// a depth, so the start node needs no look at them.
pub(crate) fn run(
    code: &[u32; 524],
    image: &[u8],
    input: &[u8],
    slots: &mut [u32],
    start: u32,
) -> Answer
    requires { Runs code.now image.now input.now slots.old start }
    ensures { Ran code.now image.now input.now slots.new result }
{
    let mut bytes = [0u8; 16384];
    bytes[..image.len()].copy_from_slice(image);
    let mut store = [0u32; 768];
    let state = State {
        truths: [true; 8],
        floors: [0u16; 8],
    };
    let machine = Machine {
        code,
        image: &bytes,
        input,
    };
    let from = Packed::passed(0, 0, 0, 0);
    let r = machine.inside(&mut store, state, code[DEPTH_LIMIT], start, from);
    ended(slots, &store, r)
}
