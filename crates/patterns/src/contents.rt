// Two symbols, by the tokens that put them out.
ghost use Rattle.std.specs.Prelude.{◌≡◌};
ghost use Rattle.notation.specs.Lexer.{same};
ghost use Rattle.notation.specs.At.{name_at};
ghost use Rattle.notation.specs.Stream.{stands};
ghost use Rattle.notation.specs.Symbols.{same_symbol};
ghost use Rattle.lexer.specs.Meant.{leaf_at};
ghost use Rattle.walker.specs.Walks.{symbol_at, Shown};
ghost use Rattle.patterns.specs.Compared.{TakenLeaf};

use chars::class::same_class;
use chars::quoted::same_quoted;
use index::order::order_at;
use lexer::token::{Leaf, Token};
use walker::walk::Symbol;

// Whether two names of a text are the same.
fn same_name(text: &[u8], p: usize, q: usize) -> bool
    ensures { result ≡ same (name_at text.now p) (name_at text.now q) }
{
    order_at(text, p, q).is_eq()
}

// Whether two tokens of one leaf have the same contents: those of quoted text or of a class, a name, or none.
fn same_leaf(text: &[u8], leaf: Leaf, a: Token, b: Token) -> bool
    requires { TakenLeaf text.now a leaf × TakenLeaf text.now b leaf }
    ensures { result ≡ same_symbol (stands (leaf_at text.now a leaf)) (stands (leaf_at text.now b leaf)) }
{
    match leaf {
        Leaf::Any => true,
        Leaf::Quoted => same_quoted(text, a.start, b.start),
        Leaf::Class => same_class(text, a.start, b.start),
        _ => same_name(text, a.name, b.name),
    }
}

// Whether two symbols are of one kind and have the same contents by their tokens: those of quoted text or of a class, a truth and a name, a name, or none.
#[tactic(auto, using(crate::proofs::ContentsLaws::same_plain))]
pub fn same_contents(text: &[u8], symbol: Symbol, a: Token, other: Symbol, b: Token) -> bool
    requires { Shown text.now a symbol × Shown text.now b other }
    ensures { result ≡ same_symbol (symbol_at text.now a symbol) (symbol_at text.now b other) }
{
    if symbol != other {
        return false;
    }
    match symbol {
        Symbol::Head | Symbol::Opens(_) => same_name(text, a.name, b.name),
        Symbol::Leaf(leaf) => same_leaf(text, leaf, a, b),
        _ => true,
    }
}
