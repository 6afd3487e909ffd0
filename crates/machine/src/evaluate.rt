// The evaluator: a node is run by running the nodes inside it, each with one less of depth left. `eval` and `inside` together are the evaluator; every
// node that stands inside another is entered through `eval`.
//
// What an expression starts from, and what it passes to, is one number: the place, the symbols held, and the tally of steps and greatest depth.
// `entered` charges the tally, and nothing else does. `slots` is the run's own store, of which the caller's slots get what it holds at the end. Nothing
// below the symbols held on entering is ever written, so what fails needs no undoing.
ghost use Rattle.std.specs.Prelude.{◌+◌, ◌<◌, ◌≤◌};
ghost use Rattle.parts.specs.Packed.{at_of, held_of, steps_of};
ghost use Rattle.parts.specs.Slots.{symbols};
ghost use Rattle.machine.specs.Told.{and_then, or_else};
ghost use Rattle.machine.specs.Ready.{step_limit, depth_limit, Starts, Numbered, Done, running, saying, repeating};

use image::node::{Node, node_of, span_of};
use kinds::inside::{again, closed, defined, given, is_latest, is_some, negated, restored};
use kinds::state::State;
use parts::bytes::within;
use parts::outcome::{Outcome, Packed, Stop};
use parts::slots::latest;
use tally::entered;

// Where in the array of nodes and patterns the limits of steps, depth and room stand.
pub const STEP_LIMIT: usize = 520;

pub const DEPTH_LIMIT: usize = 521;

pub const ROOM_LIMIT: usize = 522;

// Where it stands how many of the bytes lent are the image's: no code reads that, but the promise needs it.
pub const IMAGE_LENGTH: usize = 523;

// What a run reads: the array of nodes, patterns and limits; the image's bytes; and the input.
#[derive(Clone, Copy)]
pub struct Machine<'a> {
    pub code: &'a [u32; 524],
    pub image: &'a [u8; 16384],
    pub input: &'a [u8],
}

impl<'a> Machine<'a> {
    // Enters a node and runs it. The array `code` holds a word for each node, each table's pattern, the limits of steps, depth and room, and, for the promise
    // alone, how many of the bytes lent are the image's. A single byte is looked at on the spot if its depth was reached before, so that only the place and the
    // steps change; all else is run by a call.
    #[cycle(choice_eval_inside_sequence_star)]
    pub fn eval(
        &self,
        slots: &mut [u32; 768],
        state: State,
        left: u32,
        node: u32,
        from: Packed,
    ) -> Packed
        requires { Starts self.now slots.old left from × Numbered self.now node }
        ensures { Done (held_of from) slots.old slots.new result
            (saying self.now state slots.old left from node) }
    {
        let spent = from.steps();
        if self.code[STEP_LIMIT] <= spent {
            return from.stopped(Stop::Steps);
        }
        if left == 0 {
            return from.stopped(Stop::Depth);
        }
        let kind = node_of(self.code[node as usize]);
        if let Some(span) = span_of(kind) {
            let deepest = from.depth();
            if self.code[DEPTH_LIMIT] - (left - 1) <= deepest {
                let at = from.at();
                let ok = within(self.input, at as usize, span.lo, span.hi);
                let tally = entered(spent, deepest, 0);
                let charged = Packed::passed(at, from.held(), tally.steps, tally.depth);
                return charged.onward(ok);
            }
        }
        self.inside(slots, state, left, node, from)
    }

    // Charges the entry and runs a node of any kind; a single byte comes here at a depth that is new. A step and a depth must be left.
    #[cycle(choice_eval_inside_sequence_star)]
    pub fn inside(
        &self,
        slots: &mut [u32; 768],
        state: State,
        left: u32,
        node: u32,
        from: Packed,
    ) -> Packed
        requires { Starts self.now slots.old left from × Numbered self.now node × (steps_of from < step_limit self.now.code.now) × (1 ≤ left) }
        ensures { Done (held_of from) slots.old slots.new result
            (saying self.now state slots.old left from node) }
    {
        let below = left - 1;
        let at = from.at();
        let held = from.held();
        let tally = entered(from.steps(), from.depth(), self.code[DEPTH_LIMIT] - below);
        let steps = tally.steps;
        let depth = tally.depth;
        let charged = Packed::passed(at, held, steps, depth);
        let kind = node_of(self.code[node as usize]);
        match kind {
            Node::Empty => charged,
            Node::Byte(b) => given(
                within(self.input, at as usize, b, b),
                at + 1,
                held,
                steps,
                depth,
            ),
            Node::Range(lo, hi) => given(
                within(self.input, at as usize, lo, hi),
                at + 1,
                held,
                steps,
                depth,
            ),
            Node::Any => given((at as usize) < self.input.len(), at + 1, held, steps, depth),
            Node::Text(place, count) => {
                let (image, input) = (self.image, self.input);
                let start = place as usize;
                let text = &image[start..start + count as usize];
                let ok = input[at as usize..].starts_with(text);
                given(ok, at + count, held, steps, depth)
            }
            Node::Sequence(a, b) => self.sequence(slots, state, below, a, b, charged),
            Node::Choice(a, b) => self.choice(slots, state, below, a, b, charged),
            Node::Star(a) => self.star(slots, state, below, a, charged),
            Node::Not(a) => {
                let r = self.eval(slots, state, below, a, charged);
                negated(at, held, r)
            }
            Node::Call(a) => self.eval(slots, state, below, a, charged),
            Node::Def(t) => {
                let pattern = self.code[(512 + t) as usize];
                let r = self.eval(slots, state, below, pattern, charged);
                defined(self.code[ROOM_LIMIT], slots, t, at, held, r)
            }
            Node::Match(t) => {
                let Some(seen) = latest(slots, t, state.floor(t), held) else {
                    return Packed::failed(steps, depth);
                };
                again(self.input, slots, seen, at, held, steps, depth)
            }
            Node::Is(t) => {
                let Some(seen) = latest(slots, t, state.floor(t), held) else {
                    return Packed::failed(steps, depth);
                };
                let pattern = self.code[(512 + t) as usize];
                let r = self.eval(slots, state, below, pattern, charged);
                is_latest(self.input, slots, seen, at, held, r)
            }
            Node::Isa(t) => {
                let low = state.floor(t);
                if latest(slots, t, low, held).is_none() {
                    return Packed::failed(steps, depth);
                }
                let pattern = self.code[(512 + t) as usize];
                let r = self.eval(slots, state, below, pattern, charged);
                is_some(self.input, slots, t, low, at, held, r)
            }
            Node::Exists(t) => {
                let seen = latest(slots, t, state.floor(t), held);
                given(seen.is_some(), at, held, steps, depth)
            }
            Node::Block(t, a) => {
                let r = self.eval(slots, state, below, a, charged);
                closed(slots, t, held, r)
            }
            Node::Local(t, a) => {
                let hidden = state.with_floor(t, held);
                let r = self.eval(slots, hidden, below, a, charged);
                closed(slots, t, held, r)
            }
            Node::If(c, w) => given(state.truth(c) == w, at, held, steps, depth),
            Node::On(c, w, a) => {
                let switched = state.with_truth(c, w);
                let r = self.eval(slots, switched, below, a, charged);
                restored(held, r)
            }
        }
    }

    // A, then b from where a came to.
    #[cycle(choice_eval_inside_sequence_star)]
    fn sequence(
        &self,
        slots: &mut [u32; 768],
        state: State,
        left: u32,
        a: u32,
        b: u32,
        from: Packed,
    ) -> Packed
        requires { Starts self.now slots.old left from × Numbered self.now a × Numbered self.now b }
        ensures { Done (held_of from) slots.old slots.new result
            (and_then (saying self.now state slots.old left from a)
            (λ q τ s d. running self.now state left s d b q τ)) }
    {
        let r = self.eval(slots, state, left, a, from);
        // An outcome is one of three, and no `Result`: what did not pass is handed on as it is.
        let Outcome::Passed { .. } = r.opened() else {
            return r;
        };
        self.eval(slots, state, left, b, r)
    }

    // A; or, where a fails, b from the same place with the same symbols.
    #[cycle(choice_eval_inside_sequence_star)]
    fn choice(
        &self,
        slots: &mut [u32; 768],
        state: State,
        left: u32,
        a: u32,
        b: u32,
        from: Packed,
    ) -> Packed
        requires { Starts self.now slots.old left from × Numbered self.now a × Numbered self.now b }
        ensures { Done (held_of from) slots.old slots.new result
            (or_else (saying self.now state slots.old left from a)
            (λ s d. running self.now state left s d b (at_of from) (symbols (held_of from) slots.old))) }
    {
        let r = self.eval(slots, state, left, a, from);
        let Outcome::Failed { steps, depth } = r.opened() else {
            return r;
        };
        let back = Packed::passed(from.at(), from.held(), steps, depth);
        self.eval(slots, state, left, b, back)
    }

    // Rounds of a until it fails, of which the first is charged already; the rounds that passed are kept.
    #[cycle(choice_eval_inside_sequence_star)]
    fn star(&self, slots: &mut [u32; 768], state: State, left: u32, a: u32, from: Packed) -> Packed
        requires { Starts self.now slots.old left from × Numbered self.now a × (left + 1 ≤ depth_limit self.now.code.now) }
        ensures { Done (held_of from) slots.old slots.new result
            (repeating self.now state slots.old left from a) }
    {
        let mut here = from;
        // No iterator: a round is a run, which goes on from the one before and writes the store.
        loop {
            let r = self.eval(slots, state, left, a, here);
            let at = here.at();
            match r.opened() {
                Outcome::Passed {
                    at: next,
                    held,
                    steps,
                    depth,
                } => {
                    if next <= at {
                        return Packed::refused(Stop::Round, at, steps, depth);
                    }
                    if self.code[STEP_LIMIT] <= steps {
                        return Packed::refused(Stop::Steps, next, steps, depth);
                    }
                    let tally = entered(steps, depth, 0);
                    here = Packed::passed(next, held, tally.steps, tally.depth);
                }
                Outcome::Failed { steps, depth } => return Packed::passed(
                    at,
                    here.held(),
                    steps,
                    depth,
                ),
                Outcome::Refused { .. } => return r,
            }
        }
    }
}
