// Each production's own node.
ghost use Rattle.std.specs.Prelude.{◌≡◌, List, ◌-◌, ◌≤◌, length, get_or, set};
ghost use Rattle.notation.specs.Tree.{Production};
ghost use Rattle.notation.specs.Text.{ReadsAs};
ghost use Rattle.naming.specs.Rooted.{Rootable, Rooted, Listed, root_at, Settles, Settled};

use crate::weight::{closed, weight_of};
use index::list::seek;
use lexer::token::{Kind, token_from};
use lexer::tokens::Tokens;

// All nodes, and the first production's own.
#[derive(Clone, Copy)]
pub struct Counted {
    pub nodes: usize,
    pub start: usize,
}

// The number that is kept for the name at a place.
fn root_of(text: &[u8], heads: &[u16], roots: &[u16], name: usize) -> usize
    requires { Listed text.now heads.now roots.now name }
    ensures { result ≡ get_or roots.now (root_at text.now heads.now name) 0 }
{
    let index = seek(text, heads, name).unwrap();
    usize::from(roots[index])
}

// Keeps the last node before an end for the name at a place.
fn put_root(text: &[u8], heads: &[u16], roots: &mut [u16], name: usize, end: usize)
    requires { Listed text.now heads.now roots.old name × (1 ≤ end) × (end ≤ 512) }
    ensures { roots.new ≡ set roots.old (root_at text.now heads.now name) (end - 1) }
{
    let index = seek(text, heads, name).unwrap();
    roots[index] = (end - 1) as u16;
}

// Ends the production that is open, if one is, and gives the nodes up to its end.
fn settle(
    text: &[u8],
    heads: &[u16],
    roots: &mut [u16],
    name: usize,
    nodes: usize,
    weight: usize,
) -> usize
    requires { Settles text.now heads.now roots.old name nodes weight }
    ensures { Settled text.now heads.now roots.old name nodes weight roots.new result }
{
    let end = closed(nodes, weight);
    if weight != 0 {
        put_root(text, heads, roots, name, end);
    }
    end
}

// Fills in each production's own node, by the place of its name among the names at the places of `heads`.
pub fn fill_roots(text: &[u8], heads: &[u16], roots: &mut [u16]) -> Counted
    requires { (length text.now ≤ 65535) × Rootable text.now heads.now roots.old }
    ensures { (ps : List Production) → ReadsAs text.now ps
        → Rooted text.now heads.now roots.new result ps }
{
    let start = token_from(text, 0).name;
    let mut nodes = 0;
    let mut weight = 0;
    let mut name = start;
    for t in Tokens::new(text) {
        if t.kind == Kind::Head {
            nodes = settle(text, heads, roots, name, nodes, weight);
            weight = 0;
            name = t.name;
        } else {
            weight += weight_of(text, t);
        }
    }
    Counted {
        nodes: settle(text, heads, roots, name, nodes, weight),
        start: root_of(text, heads, roots, start),
    }
}
