// Classes.
ghost use Rattle.std.specs.Prelude.{◌≡◌, ◌≤◌, ◌<◌, drop, length};
ghost use Rattle.notation.specs.Lexer.{fresh, begin, parts, same};
ghost use Rattle.notation.specs.Symbols.{ends};
ghost use Rattle.notation.specs.At.{parts_of};
ghost use Rattle.chars.specs.Char.{ranges, up_to, char_of, part_of};
ghost use Rattle.chars.specs.Meant.{left, ReadsPart, ClassEnds, ClassAt};

use crate::row::{Row, row_end};
use crate::written::{Read, char_at};

// A part of a class: the bytes from one to the other.
#[derive(Clone, Copy, PartialEq, Eq)]
pub struct Part {
    pub lo: u8,
    pub hi: u8,
}

// Whether a `-` and a byte that is no `]` stand at a place.
#[tactic(auto, using(crate::proofs::WrittenLaws::over, crate::proofs::WrittenLaws::front), unfolding(crate::specs::Char::ranges))]
fn ranges_at(text: &[u8], at: usize) -> bool
    requires { at ≤ length text.now }
    ensures { result ≡ ranges (drop at text.now) }
{
    if text.len() - at < 2 {
        return false;
    }
    text[at] == b'-' && text[at + 1] != b']'
}

// The range from a byte to the one that is written at a place.
#[tactic(auto, unfolding(crate::specs::Char::up_to))]
fn range_to(text: &[u8], lo: u8, at: usize) -> Option<Read<Part>>
    ensures { ReadsPart (up_to lo (char_of (drop at text.now))) text.now at result }
{
    let Read { what: hi, next } = char_at(text, at)?;
    if hi < lo {
        return None;
    }
    Some(Read {
        what: Part { lo, hi },
        next,
    })
}

// The part that is written at a place.
#[tactic(auto, using(crate::proofs::ClassLaws::part_none, crate::proofs::ClassLaws::part_ranges, crate::proofs::ClassLaws::part_alone, crate::proofs::WrittenLaws::behind))]
pub fn part_at(text: &[u8], at: usize) -> Option<Read<Part>>
    ensures { ReadsPart (part_of (drop at text.now)) text.now at result }
{
    let Read { what: lo, next } = char_at(text, at)?;
    if ranges_at(text, next) {
        return range_to(text, lo, next + 1);
    }
    Some(Read {
        what: Part { lo, hi: lo },
        next,
    })
}

// Where the class ends whose first byte, behind its `[`, stands at `from`.
#[tactic(auto, using(crate::proofs::ClassLaws::class_over, crate::proofs::ClassLaws::class_refused, crate::proofs::ClassLaws::class_ends))]
pub fn class_end(text: &[u8], from: usize) -> Option<usize>
    ensures { ClassEnds text.now from result }
{
    let b = *text.get(from)?;
    if b == b'^' || b == b']' {
        return None;
    }
    row_end::<Part>(text, from, b']')
}

// The parts of the class at p.
#[tactic(auto, using(crate::proofs::RowLaws::parts_are))]
pub fn class(text: &[u8], p: usize) -> Row<'_, Part>
    requires { ClassAt text.now p }
    ensures { left (λ _. parts begin fresh) result.stop result.text.now result.at ≡ parts_of (drop p text.now) }
{
    Row::new(text, p + 1, b']')
}

// Whether the class at p has the same parts as the one at q.
pub fn same_class(text: &[u8], p: usize, q: usize) -> bool
    requires { ClassAt text.now p × ClassAt text.now q }
    ensures { result ≡ same (ends (parts_of (drop p text.now))) (ends (parts_of (drop q text.now))) }
{
    class(text, p).eq(class(text, q))
}

// How many parts the class at p has.
pub fn class_size(text: &[u8], p: usize) -> usize
    requires { ClassAt text.now p }
    ensures { result ≡ length (parts_of (drop p text.now)) }
{
    class(text, p).count()
}
