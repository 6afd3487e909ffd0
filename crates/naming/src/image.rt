// Bytes of the image past their limit.
ghost use Rattle.std.specs.Prelude.{◌≡◌, List, ◌+◌, ltb};
ghost use Rattle.grammar.specs.Grammar.{Grammar};
ghost use Rattle.notation.specs.Tree.{Production};
ghost use Rattle.notation.specs.Lexer.{lexemes};
ghost use Rattle.notation.specs.Text.{ReadsAs};
ghost use Rattle.notation.specs.Places.{name_place, first_over, image_up_to, is_head, only};
ghost use Rattle.naming.specs.Found.{found};
ghost use Rattle.naming.specs.Sized.{Sized};

use lexer::token::Kind;
use lexer::tokens::Tokens;

// Whether an end, counted from a base, is past 16,384.
fn is_past(base: usize, end: usize) -> bool
    ensures { result ≡ ltb 16384 (base + end) }
{
    16384 < base || 16384 - base < end
}

// Finds the name of the first production whose nodes end past 16,384 bytes: those of the production of number i end `ends[i]` bytes behind the base.
pub fn over_image(text: &[u8], base: usize, ends: &[u16]) -> Option<usize>
    ensures { (ps : List Production) (g : Grammar) → ReadsAs text.now ps → Sized g base ends.now ps
        → result ≡ found (name_place text.now) (first_over 16384 (image_up_to g) 0 ps (only is_head (lexemes text.now))) }
{
    let mut ends = ends.iter();
    for t in Tokens::new(text) {
        if t.kind == Kind::Head {
            let end = ends.next()?;
            if is_past(base, usize::from(*end)) {
                return Some(t.name);
            }
        }
    }
    None
}
