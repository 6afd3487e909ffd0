// Yarnspire: a recogniser for Nez grammars.
//
// Four operations, which take every text, image, input, limits and buffer, of any length, and ask nothing of their caller: `compile`, `check`, `recognise` and
// `accepted_text`. For C and Rust: `yarnspire_compile`, `yarnspire_check` and `yarnspire_recognise`, which the crate `yarnspire_c` exports under these names.
#![tactic(auto)]

ghost use Rattle.std.specs.Prelude.{◌≡◌};
ghost use Rattle.yarnspire.specs.Answer.{six_of, numbers};
ghost use Rattle.yarnspire.specs.Promise.{Checks, Numbers, Answers, Recognised, Texts};

mod answer;
mod run;
mod written;

pub use answer::{Answer, Refusal};
pub use compiler::refusal::{Refusal as TextRefusal, Slip};
use machine::evaluate::{DEPTH_LIMIT, IMAGE_LENGTH, ROOM_LIMIT, STEP_LIMIT};
pub use parts::outcome::Stop;
pub use reader::{Fault, Refusal as ImageRefusal};
pub use run::Limits;
use run::{allowed, run};
pub use written::{compile, yarnspire_compile};

// Says whether an image is good, or its first fault and where that is.
#[tactic(auto, using(crate::proofs::CheckLaws::said))]
pub fn check(image: &[u8]) -> Result<(), ImageRefusal>
    ensures { Checks image.now result }
{
    image::check(image)
}

// A refusal before the run.
fn refuse(refusal: Refusal, place: u32) -> Answer
    ensures { result ≡ Answer.Refused refusal place 0 0 }
{
    Answer::Refused {
        refusal,
        place,
        steps: 0,
        depth: 0,
    }
}

// Runs an input through the grammar of an image. Accepted fills the slots with table, start and end of each held symbol, oldest first, and zeros up
// to 3R; failed and 12 to 15 put zeros there; 1 to 11 leave them as they are. What lies past 3R keeps its values.
pub fn recognise(image: &[u8], input: &[u8], limits: Limits, slots: &mut [u32]) -> Answer
    ensures { Recognised image.now input.now limits.steps limits.depth limits.room slots.old slots.new result }
{
    let mut code = [0u32; 524];
    let head = match image::load(image, &mut code) {
        Ok(head) => head,
        Err(found) => return refuse(Refusal::Image(found.fault), found.place as u32),
    };
    if 65535 < input.len() {
        return refuse(Refusal::Input, 0);
    }
    if !allowed(limits) {
        return refuse(Refusal::Limits, 0);
    }
    let lent = (limits.room * 3) as usize;
    if slots.len() < lent {
        return refuse(Refusal::Slots, 0);
    }
    // The limits stand behind the nodes and patterns. The last number, how many bytes the image has, is read by no code: the evaluator's promise needs
    // it, since the image reaches the evaluator in an array of a fixed length.
    code[STEP_LIMIT] = limits.steps;
    code[DEPTH_LIMIT] = limits.depth;
    code[ROOM_LIMIT] = limits.room;
    code[IMAGE_LENGTH] = image.len() as u32;
    run(&code, image, input, &mut slots[..lent], head.start)
}

// The answer's six numbers, in their order.
fn write(
    answer: Answer,
    kind: &mut u32,
    consumed: &mut u32,
    count: &mut u32,
    deepest: &mut u32,
    symbols: &mut u32,
    place: &mut u32,
)
    ensures { numbers kind.new consumed.new count.new deepest.new symbols.new place.new ≡ six_of answer }
{
    match answer {
        Answer::Accepted {
            consumed: n,
            steps: s,
            depth: d,
            symbols: h,
        } => {
            *kind = 0;
            *consumed = n;
            *count = s;
            *deepest = d;
            *symbols = h;
            *place = 0;
        }
        Answer::Failed { steps: s, depth: d } => {
            *kind = 99;
            *consumed = 0;
            *count = s;
            *deepest = d;
            *symbols = 0;
            *place = 0;
        }
        Answer::Refused {
            refusal,
            place: p,
            steps: s,
            depth: d,
        } => {
            *kind = refusal.number();
            *consumed = 0;
            *count = s;
            *deepest = d;
            *symbols = 0;
            *place = p;
        }
    }
}

// An answer, and the accepted front of the input as a part of the caller's own bytes: empty where nothing is accepted. (The promise fixes the bytes
// that are handed back; that they lie at the input's front is seen in the body of `accepted_text` alone.)
#[derive(Clone, Copy)]
pub struct Recognition<'a> {
    pub answer: Answer,
    pub text: &'a [u8],
}

// Recognises, and hands back the accepted text with the answer.
pub fn accepted_text<'a>(
    image: &[u8],
    input: &'a [u8],
    limits: Limits,
    slots: &mut [u32],
) -> Recognition<'a>
    ensures { Texts image.now input.now limits.steps limits.depth limits.room slots.old slots.new (six_of result.answer) result.text.now }
{
    let answer = recognise(image, input, limits, slots);
    let text = match answer {
        Answer::Accepted { consumed, .. } => &input[..consumed as usize],
        _ => &input[..0],
    };
    Recognition { answer, text }
}

// For C and Rust: check, with number 0 and place 0 for good.
pub fn yarnspire_check(image: &[u8], number: &mut u32, place: &mut u32)
    ensures { Numbers image.now number.new place.new }
{
    match check(image) {
        Ok(()) => {
            *number = 0;
            *place = 0;
        }
        Err(refusal) => {
            *number = refusal.fault.number();
            *place = refusal.place as u32;
        }
    }
}

// For C and Rust: recognise, with the answer in six numbers in 01's order: kind (0 accepted, 99 failed, else the refusal's number), consumed, steps,
// greatest depth, symbols held, place. The accepted text is the input's first
// `consumed` bytes.
pub fn yarnspire_recognise(
    image: &[u8],
    input: &[u8],
    steps: u32,
    depth: u32,
    room: u32,
    slots: &mut [u32],
    kind: &mut u32,
    consumed: &mut u32,
    count: &mut u32,
    deepest: &mut u32,
    symbols: &mut u32,
    place: &mut u32,
)
    ensures { Answers image.now input.now steps depth room slots.old slots.new
        (numbers kind.new consumed.new count.new deepest.new symbols.new place.new) }
{
    let limits = Limits { steps, depth, room };
    let answer = recognise(image, input, limits, slots);
    write(answer, kind, consumed, count, deepest, symbols, place);
}
