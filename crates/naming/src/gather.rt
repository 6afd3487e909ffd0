// The names of a sort that a text's tokens name, in byte order, each once.
ghost use Rattle.std.specs.Prelude.{◌≡◌, List, [], ℕ, ◌≤◌, ◌<◌, length};
ghost use Rattle.notation.specs.Lexer.{lexemes};
ghost use Rattle.notation.specs.At.{name_at};
ghost use Rattle.index.specs.Listed.{names_at, Ascending};
ghost use Rattle.lexer.specs.Meant.{meant};
ghost use Rattle.naming.specs.Told.{named};
ghost use Rattle.naming.specs.Gathered.{sort_of, gathered, Gathers, Adds};

use index::list::keep;
use lexer::token::{Kind, Leaf, Opener, Token};
use lexer::tokens::Tokens;

// How many names there are; where the first one stands that an earlier token has named already, and the first with which there are nine.
#[derive(Clone, Copy)]
pub struct Gathered {
    pub count: usize,
    pub again: Option<usize>,
    pub ninth: Option<usize>,
}

// What names are gathered: those of productions, of the tables that are defined, or of conditions.
#[derive(Clone, Copy, PartialEq, Eq, Debug)]
pub enum Sort {
    Productions,
    Tables,
    Conditions,
}

// Whether a token names one of a sort.
#[tactic(auto, unfolding(lexer::specs::Meant::meant_by, lexer::specs::Meant::leaf_at, lexer::specs::Meant::opener_at))]
fn is_of(t: Token, sort: Sort) -> bool
    ensures { (text : List ℕ) → sort_of sort (meant text t) ≡ named result (name_at text t.name) }
{
    match sort {
        Sort::Productions => t.kind == Kind::Head,
        Sort::Tables => t.kind == Kind::Opens(Opener::Def),
        Sort::Conditions => matches!(t.kind, Kind::Leaf(Leaf::If(_)) | Kind::Opens(Opener::On(_))),
    }
}

// Adds the name at a place to those that are gathered.
fn add(text: &[u8], at: &mut [u16], g: Gathered, p: usize) -> Gathered
    requires { (g.count < length at.old) × (p ≤ 65535) × Ascending (names_at text.now at.old g.count) }
    ensures { Adds text.now at.old g p at.new result }
{
    let kept = keep(text, at, g.count, p);
    Gathered {
        count: kept.count,
        again: g.again.or((!kept.fresh).then_some(p)),
        ninth: g.ninth.or((8 < kept.count).then_some(p)),
    }
}

// Gathers the names of a sort.
pub fn gather(text: &[u8], at: &mut [u16], sort: Sort) -> Gathered
    requires { (length text.now ≤ 65535) × (length (gathered (sort_of sort) [] (lexemes text.now)) < length at.old) }
    ensures { Gathers (sort_of sort) text.now at.new result }
{
    let mut g = Gathered {
        count: 0,
        again: None,
        ninth: None,
    };
    for t in Tokens::new(text) {
        if is_of(t, sort) {
            g = add(text, at, g, t.name);
        }
    }
    g
}
