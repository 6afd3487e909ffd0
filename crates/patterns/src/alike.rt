// Two expressions of a text, walked side by side.
ghost use Rattle.std.specs.Prelude.{◌≤◌, ◌≡◌, length};
ghost use Rattle.patterns.specs.Compared.{stream_at, Compares};

use crate::contents::same_contents;
use lexer::token::Opener;
use walker::act::Open;
use walker::walk::{Step, Symbol, Walk};

// Compares the expressions at p and at q, symbol by symbol, up to the `>` behind them: how many defs begin inside, if they are alike as read. `left` and `right` are
// lent for what is open on the way, and what stands in them does not matter.
pub fn alike(
    text: &[u8],
    left: &mut [Open; 65536],
    right: &mut [Open; 65536],
    p: usize,
    q: usize,
) -> Option<usize>
    requires { (length left.old ≡ 65536) × (length right.old ≡ 65536) × (length text.now ≤ 65535) }
    ensures { Compares (stream_at text.now p) (stream_at text.now q) result × (length left.new ≡ 65536) × (length right.new ≡ 65536) }
{
    let mut v = Walk::inside(text, p);
    let mut w = Walk::inside(text, q);
    let mut defs = 0;
    // No iterator: two walks go on side by side, and each is lent its stack at every step.
    loop {
        let a = v.next(text, left);
        let b = w.next(text, right);
        match (a, b) {
            (
                Step::Symbol {
                    symbol,
                    token,
                    walk,
                },
                Step::Symbol {
                    symbol: other,
                    token: twin,
                    walk: beside,
                },
            ) => {
                if !same_contents(text, symbol, token, other, twin) {
                    return None;
                }
                if symbol == Symbol::Opens(Opener::Def) {
                    defs += 1;
                }
                v = walk;
                w = beside;
            }
            (Step::Broken, Step::Broken) => return Some(defs),
            _ => return None,
        }
    }
}
