// A class as nodes: its parts, and then the choices over them, the last two first.
ghost use Rattle.std.specs.Prelude.{◌≡◌, [], ◌∷◌, map, ℕ, suc, ◌+◌, ◌-◌, ◌≤◌, length, drop};
ghost use Rattle.notation.specs.Tree.{Name};
ghost use Rattle.notation.specs.At.{parts_of, class_of};
ghost use Rattle.notation.specs.Compile.{part_node, choices, leaf_count, leaf_nodes};
ghost use Rattle.chars.specs.Meant.{ClassAt, from_to};
ghost use Rattle.writer.specs.Put.{Room, Adds};

use crate::node::{Made, add};
use chars::class::{Part, class};

// The node of a part.
fn add_part(out: &mut [u8], m: Made, p: Part) -> Made
    requires { Room out.old m 1 }
    ensures { Adds out.old m out.new result (part_node (from_to p) ∷ []) }
{
    if p.lo == p.hi {
        return add(out, m, &[1, u16::from(p.lo)]);
    }
    add(out, m, &[2, u16::from(p.lo), u16::from(p.hi)])
}

// The parts of the class at `start`. A loop as in quoted text, but what goes round it is a `Made`, with another promise.
fn add_parts(text: &[u8], out: &mut [u8], m: Made, start: usize) -> Made
    requires { ClassAt text.now start × Room out.old m (length (parts_of (drop start text.now))) }
    ensures { Adds out.old m out.new result (map part_node (parts_of (drop start text.now))) }
{
    let mut r = m;
    for p in class(text, start) {
        r = add_part(out, r, p);
    }
    r
}

// The choices over n + 1 parts whose nodes begin at k, all of which stand there.
fn add_choices(out: &mut [u8], m: Made, k: usize, n: usize) -> Made
    requires { (k + n + 1 ≡ m.nodes) × Room out.old m n }
    ensures { Adds out.old m out.new result (choices k n (k + n) (suc (k + n))) }
{
    let mut r = m;
    for i in (0..n).rev() {
        r = add(out, r, &[6, (k + i) as u16, (r.nodes - 1) as u16]);
    }
    r
}

// The nodes of the class at `start`.
pub(crate) fn add_class(text: &[u8], out: &mut [u8], m: Made, start: usize) -> Made
    requires { ClassAt text.now start × (1 ≤ length (parts_of (drop start text.now))) × Room out.old m (leaf_count (class_of (parts_of (drop start text.now)))) }
    ensures { (production table condition : Name → ℕ) → Adds out.old m out.new result (leaf_nodes production table condition m.nodes (class_of (parts_of (drop start text.now)))) }
{
    let r = add_parts(text, out, m, start);
    add_choices(out, r, m.nodes, r.nodes - m.nodes - 1)
}
