// What holds no expression, as nodes.
ghost use Rattle.std.specs.Prelude.{◌≡◌, true, [], ◌∷◌, ◌≤◌, length};
ghost use Rattle.format.specs.Written.{numbers, encode_node};
ghost use Rattle.grammar.specs.Expr.{Expr};
ghost use Rattle.notation.specs.At.{name_at};
ghost use Rattle.notation.specs.Naming.{all};
ghost use Rattle.notation.specs.Limits.{short};
ghost use Rattle.notation.specs.Compile.{leaf_count};
ghost use Rattle.lexer.specs.Meant.{leaf_at};
ghost use Rattle.index.specs.Listed.{Ascending};
ghost use Rattle.writer.specs.Put.{Room, Adds};
ghost use Rattle.writer.specs.Named.{names_of, place_by, leaf_by, Numbered};
ghost use Rattle.writer.specs.Leaf.{LeafTaken};

use crate::class::add_class;
use crate::named::Names;
use crate::node::{Made, add};
use crate::quoted::add_quoted;
use lexer::token::{Leaf, Token};

// A node with this tag, the image's number for its kind, and with the table whose name stands at p.
pub(crate) fn add_table(names: Names, out: &mut [u8], m: Made, tag: u16, p: usize) -> Made
    requires { Ascending (names_of names.text.now names.tables.now) × (length names.tables.now ≤ 8) × Room out.old m 1 }
    ensures { (x : Expr) → encode_node x ≡ numbers (tag ∷ place_by names.entry.text.now names.entry.tables.now (name_at names.entry.text.now p) ∷ []) → Adds out.old m out.new result (x ∷ []) }
{
    add(out, m, &[tag, names.table(p) as u16])
}

// The nodes of a leaf, which the token is.
#[tactic(auto, unfolding(lexer::specs::Meant::leaf_at))]
pub fn add_leaf(names: Names, out: &mut [u8], m: Made, leaf: Leaf, t: Token) -> Made
    requires ascending { Ascending (names_of names.text.now names.heads.now) × Numbered names.text.now names.tables.now names.switches.now × LeafTaken names.text.now t leaf }
    requires room { (all (λ b. b) (short (leaf_at names.text.now t leaf)) ≡ true) × Room out.old m (leaf_count (leaf_at names.text.now t leaf)) }
    ensures { Adds out.old m out.new result (leaf_by names.entry.text.now names.entry.heads.now names.entry.roots.now names.entry.tables.now names.entry.switches.now m.nodes (leaf_at names.entry.text.now t leaf)) }
{
    match leaf {
        Leaf::Any => add(out, m, &[3]),
        Leaf::Quoted => add_quoted(names.text, out, m, t.start),
        Leaf::Class => add_class(names.text, out, m, t.start),
        Leaf::Call => add(out, m, &[9, names.root(t.name)]),
        Leaf::Match => add_table(names, out, m, 11, t.name),
        Leaf::Is => add_table(names, out, m, 12, t.name),
        Leaf::Isa => add_table(names, out, m, 13, t.name),
        Leaf::Exists => add_table(names, out, m, 14, t.name),
        Leaf::If(truth) => {
            let switch = names.switch(t.name) as u16;
            add(out, m, &[17, switch, u16::from(truth)])
        }
    }
}
