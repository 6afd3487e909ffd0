// Nodes past their limit.
ghost use Rattle.std.specs.Prelude.{◌≡◌, List, ◌≤◌, length};
ghost use Rattle.notation.specs.Tree.{Production};
ghost use Rattle.notation.specs.Lexer.{lexemes};
ghost use Rattle.notation.specs.Text.{ReadsAs};
ghost use Rattle.notation.specs.Places.{name_place, first_over, is_head, only};
ghost use Rattle.naming.specs.Found.{found};

use crate::weight::{closed, weight_of};
use lexer::token::Kind;
use lexer::tokens::Tokens;

// Finds the name of the first production with which there are over 512 nodes.
pub fn over_nodes(text: &[u8]) -> Option<usize>
    requires { length text.now ≤ 65535 }
    ensures { (ps : List Production) → ReadsAs text.now ps
        → result ≡ found (name_place text.now) (first_over 512 (λ n. n) 0 ps (only is_head (lexemes text.now))) }
{
    let mut nodes = 0;
    let mut weight = 0;
    let mut name = 0;
    for t in Tokens::new(text) {
        if t.kind == Kind::Head {
            nodes = closed(nodes, weight);
            if 512 < nodes {
                return Some(name);
            }
            weight = 0;
            name = t.name;
        } else {
            weight += weight_of(text, t);
        }
    }
    (512 < closed(nodes, weight)).then_some(name)
}
