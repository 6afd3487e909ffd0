// A table has one pattern.
ghost use Rattle.std.specs.Prelude.{◌≤◌, ◌≡◌, List, ◌∷◌, length, drop};
ghost use Rattle.notation.specs.Tree.{Production};
ghost use Rattle.notation.specs.Text.{ReadsAs};
ghost use Rattle.notation.specs.Lexer.{lexemes};
ghost use Rattle.notation.specs.Naming.{definitions};
ghost use Rattle.notation.specs.Places.{token_place, unlike};
ghost use Rattle.naming.specs.Found.{found};
ghost use Rattle.lexer.specs.Meant.{placed};
ghost use Rattle.patterns.specs.Passed.{defs_of, defines, Passes, Defines, Holds};

use crate::alike::alike;
use index::list::keep;
use lexer::name::name_end;
use lexer::token::{Kind, Opener, Token};
use lexer::tokens::Tokens;
use walker::act::Open;

// Whether a token is a def.
fn is_def(t: Token) -> bool
    ensures { result ≡ defines t.kind }
{
    matches!(t.kind, Kind::Opens(Opener::Def))
}

// How far the pass is: how many tables there are, and how many of the next defs are passed over.
#[derive(Clone, Copy)]
pub(crate) struct Pass {
    count: usize,
    over: usize,
}

// Holds a def to the latest one of its table, unless it is one of those that are passed over: these stand inside a def that was found alike. If it is
// alike, it is the latest from here on. How far the pass is then; none if it is not alike. `left` and `right` are lent to `alike`.
fn hold(
    text: &[u8],
    latest: &mut [u16],
    left: &mut [Open; 65536],
    right: &mut [Open; 65536],
    pass: Pass,
    t: Token,
) -> Option<Pass>
    requires { (length left.old ≡ 65536) × (length right.old ≡ 65536) × (length text.now ≤ 65535) × Defines text.now t × Passes text.now latest.old pass.count pass.over (placed text.now t ∷ defs_of (drop t.next text.now)) }
    ensures { Holds text.now latest.new t result × (length left.new ≡ 65536) × (length right.new ≡ 65536) }
{
    if 0 < pass.over {
        return Some(Pass {
            count: pass.count,
            over: pass.over - 1,
        });
    }
    let kept = keep(text, latest, pass.count, t.name);
    if kept.fresh {
        return Some(Pass {
            count: kept.count,
            over: 0,
        });
    }
    let index = kept.index;
    let before = name_end(text, usize::from(latest[index]));
    let over = alike(text, left, right, before, t.next)?;
    latest[index] = t.name as u16;
    Some(Pass {
        count: pass.count,
        over,
    })
}

// The first def that is not alike to the first one of its table, in one pass. A table is known by the place of its name in the latest def that was
// found alike, in byte order of the names. So each def is compared at most twice: with the one before it and with the one behind it.
pub fn one_pattern(text: &[u8]) -> Option<usize>
    requires { length text.now ≤ 65535 }
    ensures { (ps : List Production) → ReadsAs text.now ps → result ≡ found (token_place text.now) (unlike (definitions ps) (lexemes text.now)) }
{
    let mut latest = [0u16; 32768];
    let mut left = [Open::Bracket; 65536];
    let mut right = [Open::Bracket; 65536];
    let mut pass = Pass { count: 0, over: 0 };
    for t in Tokens::new(text) {
        if is_def(t) {
            match hold(text, &mut latest, &mut left, &mut right, pass, t) {
                Some(further) => pass = further,
                None => return Some(t.start),
            }
        }
    }
    None
}
