// The nodes of a text that has passed the tests, by one walk over its symbols.
ghost use Rattle.std.specs.Prelude.{◌≡◌, List, length};
ghost use Rattle.notation.specs.Tree.{Production};
ghost use Rattle.notation.specs.Text.{ReadsAs};
ghost use Rattle.emitter.specs.Emitted.{Ready, Emits};

use crate::state::{Opened, Stacks, State, end_production};
use crate::step::take_symbol;
use lexer::token::Opener;
use walker::act::Open;
use walker::walk::{Step, Walk};
use writer::named::Names;
use writer::node::Made;

// Writes the nodes into `out`, the node of each table's pattern into `patterns`, and where in `out` each production ends into `ends`.
pub fn emit(names: Names, out: &mut [u8], patterns: &mut [u16], ends: &mut [u16]) -> Made
    requires ready { Ready names.text.now names.heads.now names.roots.now names.tables.now names.switches.now }
    requires lengths { (length out.old ≡ 33792) × (length patterns.old ≡ length names.tables.now) × (length ends.old ≡ 512) }
    ensures { (ps : List Production) → ReadsAs names.entry.text.now ps → Emits ps out.new patterns.new ends.new result }
{
    let mut stack = [Open::Bracket; 65536];
    let mut stacks = Stacks {
        done: [0; 512],
        opened: [Opened {
            opener: Opener::Local,
            name: 0,
            brings: false,
        }; 512],
    };
    // No def of any table has begun.
    patterns.fill(512);
    let mut s = State {
        made: Made {
            nodes: 0,
            length: 0,
        },
        complete: 0,
        openers: 0,
        ended: 0,
    };
    let mut w = Walk::over(names.text);
    // No iterator: the walk is lent its stack at each step.
    loop {
        let Step::Symbol {
            symbol,
            token,
            walk,
        } = w.next(names.text, &mut stack)
        else {
            end_production(ends, s.made, s.ended);
            return s.made;
        };
        s = take_symbol(names, out, patterns, ends, &mut stacks, s, symbol, token);
        w = walk;
    }
}
