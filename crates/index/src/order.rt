// Two names of a text, in byte order.
ghost use Rattle.std.specs.Prelude.{◌≡◌, drop};
ghost use Rattle.std.specs.Bool.{then_some};
ghost use Rattle.std.specs.List.{slice_get, take_while};
ghost use Rattle.std.specs.Cmp.Lexicographic.{slice_cmp};
ghost use Rattle.std.specs.Ordering.{nat_cmp};
ghost use Rattle.notation.specs.Bytes.{name_byte};
ghost use Rattle.notation.specs.At.{name_at};
ghost use Rattle.notation.specs.Compile.{order};
ghost use Rattle.index.specs.Listed.{order_of};

use lexer::name::is_name;
use std::cmp::Ordering;

// A byte of a name; none where it is no name's.
fn named(b: u8) -> Option<u8>
    ensures { result ≡ then_some (name_byte b) b }
{
    is_name(b).then_some(b)
}

// The byte of a name at a place; none where no name's byte stands there.
fn named_at(s: &[u8], i: usize) -> Option<u8>
    ensures { result ≡ slice_get (take_while name_byte (drop i s.now)) 0 }
{
    s.get(i).copied().and_then(named)
}

// How the bytes of a name in front of one text stand to those in front of another: by the first place where they differ or a name's bytes end, or by the one
// behind the shorter text.
fn order_in_front(a: &[u8], b: &[u8]) -> Ordering
    ensures { result ≡ slice_cmp nat_cmp (take_while name_byte a.now) (take_while name_byte b.now) }
{
    match a.iter().zip(b).find(|(x, y)| x != y || !is_name(**x)) {
        Some((x, y)) => named(*x).cmp(&named(*y)),
        None => {
            let end = a.len().min(b.len());
            named_at(a, end).cmp(&named_at(b, end))
        }
    }
}

// The bytes from a place on.
fn bytes_from(text: &[u8], p: usize) -> &[u8]
    ensures { result.now ≡ drop p text.now }
{
    text.get(p..).unwrap_or(&[])
}

// How the name at p stands to the name at q.
pub fn order_at(text: &[u8], p: usize, q: usize) -> Ordering
    ensures { order_of result ≡ order (name_at text.now p) (name_at text.now q) }
{
    order_in_front(bytes_from(text, p), bytes_from(text, q))
}
