// Operators as nodes, behind their operands.
ghost use Rattle.std.specs.Prelude.{[], ◌∷◌, ℕ, length};
ghost use Rattle.notation.specs.Tree.{Name};
ghost use Rattle.notation.specs.At.{name_at};
ghost use Rattle.notation.specs.Compile.{suffix_nodes};
ghost use Rattle.lexer.specs.Meant.{suffix_of};
ghost use Rattle.writer.specs.Put.{Room, Adds};
ghost use Rattle.writer.specs.Named.{operator_by, Numbered};
ghost use Rattle.writer.specs.Operator.{unary_nodes, binary_of, opener_of};

use crate::leaf::add_table;
use crate::named::Names;
use crate::node::{Made, add};
use lexer::token::{Opener, Suffix};

// `&` and `!`, and what stands behind its operand.
#[derive(Clone, Copy, PartialEq, Eq, Debug)]
pub enum Unary {
    And,
    Not,
    After(Suffix),
}

// What joins two expressions.
#[derive(Clone, Copy, PartialEq, Eq, Debug)]
pub enum Binary {
    Sequence,
    Choice,
}

// A suffix whose operand's node is a.
fn add_suffix(out: &mut [u8], m: Made, suffix: Suffix, a: u16) -> Made
    requires { Room out.old m (length (suffix_nodes (suffix_of suffix) a m.nodes)) }
    ensures { Adds out.old m out.new result (suffix_nodes (suffix_of suffix) a m.nodes) }
{
    let k = m.nodes as u16;
    match suffix {
        Suffix::Option => {
            let r = add(out, m, &[0]);
            add(out, r, &[6, a, k])
        }
        Suffix::Star => add(out, m, &[7, a]),
        Suffix::Plus => {
            let r = add(out, m, &[7, a]);
            add(out, r, &[5, a, k])
        }
    }
}

// A prefix or a suffix whose operand's node is a.
#[tactic(auto, unfolding(crate::specs::Operator::unary_nodes))]
pub fn add_unary(out: &mut [u8], m: Made, unary: Unary, a: u16) -> Made
    requires { Room out.old m (length (unary_nodes unary a m.nodes)) }
    ensures { Adds out.old m out.new result (unary_nodes unary a m.nodes) }
{
    match unary {
        Unary::And => {
            let k = m.nodes as u16;
            let r = add(out, m, &[8, a]);
            add(out, r, &[8, k])
        }
        Unary::Not => add(out, m, &[8, a]),
        Unary::After(suffix) => add_suffix(out, m, suffix, a),
    }
}

// A sequence or a choice of the nodes a and b.
pub fn add_binary(out: &mut [u8], m: Made, binary: Binary, a: u16, b: u16) -> Made
    requires { Room out.old m 1 }
    ensures { Adds out.old m out.new result (binary_of binary a b ∷ []) }
{
    match binary {
        Binary::Sequence => add(out, m, &[5, a, b]),
        Binary::Choice => add(out, m, &[6, a, b]),
    }
}

// An operator in angle brackets whose name stands at p and whose operand's node is a.
pub fn add_operator(names: Names, out: &mut [u8], m: Made, opener: Opener, p: usize, a: u16) -> Made
    requires { Numbered names.text.now names.tables.now names.switches.now × Room out.old m 1 }
    ensures { (production : Name → ℕ) → Adds out.old m out.new result (operator_by names.entry.text.now names.entry.tables.now names.entry.switches.now production (opener_of opener (name_at names.entry.text.now p)) a ∷ []) }
{
    match opener {
        Opener::Def => add_table(names, out, m, 10, p),
        Opener::Block => add(out, m, &[15, names.table(p) as u16, a]),
        Opener::Local => add(out, m, &[16, names.table(p) as u16, a]),
        Opener::On(truth) => {
            let switch = names.switch(p) as u16;
            add(out, m, &[18, switch, u16::from(truth), a])
        }
    }
}
