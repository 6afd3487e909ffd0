// Where a walk stands: what is written, and how much is complete, open and ended.
ghost use Rattle.std.specs.Prelude.{◌≡◌, ◌≤◌, ◌<◌, length};
ghost use Rattle.emitter.specs.Shown.{Settles, EndsOne};

use lexer::token::Opener;
use writer::node::Made;

// An operator in angle brackets that is open: the place of its name, and whether it is the def that brings its table's pattern.
#[derive(Clone, Copy, PartialEq, Eq, Debug)]
pub struct Opened {
    pub opener: Opener,
    pub name: usize,
    pub brings: bool,
}

// The two stacks of a walk: the nodes of the expressions that are complete, and the operators in angle brackets that are open.
#[derive(Drop)]
pub(crate) struct Stacks {
    pub(crate) done: [u16; 512],
    pub(crate) opened: [Opened; 512],
}

// made: the nodes so far. complete: how many expressions are complete. openers: how many operators in angle brackets are open. ended: how many productions have ended.
#[derive(Clone, Copy)]
pub struct State {
    pub made: Made,
    pub complete: usize,
    pub openers: usize,
    pub ended: usize,
}

// The last node that was made is complete, over the first `depth` of what was.
pub(crate) fn settle(
    done: &mut [u16; 512],
    m: Made,
    depth: usize,
    openers: usize,
    ended: usize,
) -> State
    requires { (length done.old ≡ 512) × (depth < 512) × (1 ≤ m.nodes) × (m.nodes ≤ 512) }
    ensures { Settles done.old m depth openers ended done.new result }
{
    done[depth] = (m.nodes - 1) as u16;
    State {
        made: m,
        complete: depth + 1,
        openers,
        ended,
    }
}

// A production ends behind the nodes that were made, unless none was. How many have ended then.
pub(crate) fn end_production(ends: &mut [u16], m: Made, ended: usize) -> usize
    requires { (ended < length ends.old) × (m.length ≤ 65535) }
    ensures { EndsOne ends.old m ended ends.new result }
{
    if m.nodes == 0 {
        return ended;
    }
    ends[ended] = m.length as u16;
    ended + 1
}
