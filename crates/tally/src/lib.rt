// One running tally of steps and greatest depth, and what it costs to enter an expression or to try a later round.
//
// The tally is lent by &mut to `charge`, which alone writes it. Whoever has plain numbers calls `entered`.
#![tactic(auto)]

ghost use Rattle.std.specs.Prelude.{◌≡◌, ◌+◌, ◌<◌, max};
ghost use Rattle.tally.specs.Charged.{charged};

// The steps charged so far, and the greatest depth entered so far.
#[derive(Clone, Copy)]
pub struct Tally {
    pub steps: u32,
    pub depth: u32,
}

// Charges one step at a depth. The step limit is at most 1,000,000, so the count stays far from the end of its range.
fn charge(tally: &mut Tally, depth: u32)
    requires { tally.old.steps < 1000000 }
    ensures { tally.new ≡ charged tally.old depth }
{
    tally.steps += 1;
    tally.depth = tally.depth.max(depth);
}

// The tally after one step more, at a depth; at depth 0 where no new depth is entered: a later round of a Star, or an entry no deeper than one before.
pub fn entered(spent: u32, deepest: u32, depth: u32) -> Tally
    requires { spent < 1000000 }
    ensures { result ≡ record { steps = spent + 1; depth = max deepest depth } }
{
    let mut tally = Tally {
        steps: spent,
        depth: deepest,
    };
    charge(&mut tally, depth);
    tally
}
