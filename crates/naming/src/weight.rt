// What a text's tokens weigh: one more than the nodes that an expression's come to.
ghost use Rattle.std.specs.Prelude.{◌≡◌, ◌+◌, ◌-◌, ◌≤◌};
ghost use Rattle.notation.specs.Counts.{weight_of};
ghost use Rattle.lexer.specs.Meant.{meant};
ghost use Rattle.naming.specs.Found.{Met};
ghost use Rattle.naming.specs.Told.{weight_by};

use chars::class::class_size;
use lexer::token::{Kind, Leaf, Suffix, Token};

// The weight of what is no class.
fn weight_by(kind: Kind) -> usize
    ensures { result ≡ weight_by kind }
{
    match kind {
        Kind::Leaf(_) | Kind::And | Kind::After(Suffix::Option | Suffix::Plus) => 2,
        Kind::Opens(_) | Kind::Not | Kind::After(Suffix::Star) => 1,
        _ => 0,
    }
}

// The weight of a token: a class weighs twice as much as it has parts.
pub(crate) fn weight_of(text: &[u8], t: Token) -> usize
    requires { Met text.now t }
    ensures { result ≡ weight_of (meant text.now t) }
{
    if t.kind == Kind::Leaf(Leaf::Class) {
        return class_size(text, t.start) * 2;
    }
    weight_by(t.kind)
}

// The nodes up to the end of a production: those before it, and one less than it weighs. Nothing is open where nothing weighs.
pub(crate) fn closed(nodes: usize, weight: usize) -> usize
    requires { nodes + weight ≤ 131070 }
    ensures { result ≡ nodes + (weight - 1) }
{
    nodes + weight.saturating_sub(1)
}
