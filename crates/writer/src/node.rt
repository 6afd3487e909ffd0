// Nodes put down in a lent buffer: a tag, and then the operands.
ghost use Rattle.std.specs.Prelude.{◌≡◌, [], ◌∷◌, ◌≤◌, length};
ghost use Rattle.format.specs.Written.{numbers, encode_node};
ghost use Rattle.grammar.specs.Expr.{Expr};
ghost use Rattle.writer.specs.Put.{Room, Adds};

use crate::out::put_row;

// How many nodes were written, and how many bytes they take.
#[derive(Clone, Copy)]
pub struct Made {
    pub nodes: usize,
    pub length: usize,
}

// A node: its tag and its operands, in a row.
pub(crate) fn add(out: &mut [u8], m: Made, row: &[u16]) -> Made
    requires { Room out.old m 1 × (length row.now ≤ 22) }
    ensures { (x : Expr) → encode_node x ≡ numbers row.now → Adds out.old m out.new result (x ∷ []) }
{
    let length = put_row(out, m.length, row);
    Made {
        nodes: m.nodes + 1,
        length,
    }
}
