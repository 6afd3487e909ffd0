// Quoted text as a node.
ghost use Rattle.std.specs.Prelude.{◌≡◌, [], ◌∷◌, ◌+◌, ◌≤◌, length, drop};
ghost use Rattle.grammar.specs.Expr.{Text};
ghost use Rattle.notation.specs.At.{quoted_of};
ghost use Rattle.notation.specs.Compile.{text_node};
ghost use Rattle.chars.specs.Meant.{QuotedAt};
ghost use Rattle.writer.specs.Put.{Wrote, Room, Adds};

use crate::node::{Made, add};
use crate::out::{put_byte, put_row};
use chars::quoted::{quoted, quoted_length};

// The bytes that the quoted text at `start` stands for.
fn put_quoted(text: &[u8], out: &mut [u8], at: usize, start: usize) -> usize
    requires { QuotedAt text.now start × (at + length (quoted_of (drop start text.now)) ≤ length out.old) }
    ensures { Wrote out.old at out.new result (quoted_of (drop start text.now)) }
{
    let mut next = at;
    for b in quoted(text, start) {
        next = put_byte(out, next, b);
    }
    next
}

// A text of n bytes, as it is written where n is two or more.
fn add_text(text: &[u8], out: &mut [u8], m: Made, start: usize, n: u16) -> Made
    requires { QuotedAt text.now start × (n ≡ length (quoted_of (drop start text.now))) × (n ≤ 64) × Room out.old m 1 }
    ensures { Adds out.old m out.new result (Text (quoted_of (drop start text.now)) ∷ []) }
{
    let at = put_row(out, m.length, &[4, n]);
    let end = put_quoted(text, out, at, start);
    Made {
        nodes: m.nodes + 1,
        length: end,
    }
}

// The node of the quoted text at `start`.
pub(crate) fn add_quoted(text: &[u8], out: &mut [u8], m: Made, start: usize) -> Made
    requires { QuotedAt text.now start × (length (quoted_of (drop start text.now)) ≤ 64) × Room out.old m 1 }
    ensures { Adds out.old m out.new result (text_node (quoted_of (drop start text.now)) ∷ []) }
{
    let Some(b) = quoted(text, start).next() else {
        return add(out, m, &[0]);
    };
    let n = quoted_length(text, start);
    if n == 1 {
        return add(out, m, &[1, u16::from(b)]);
    }
    add_text(text, out, m, start, n as u16)
}
