// What is written in a text, a piece behind the other, up to a byte that ends it.
ghost use Rattle.std.specs.Prelude.{◌≡◌, ◌≢◌, Bool, true, eqb, ◌+◌, ◌-◌, ◌≤◌, ◌<◌, ℕ, List, drop, length, IfSome, Some, None, Option};
ghost use Rattle.std.specs.Iterator.{YieldsFirstBy, at_most};
ghost use Rattle.notation.specs.Lexer.{Piece, no, quote, fresh, parts, begin};
ghost use Rattle.notation.specs.At.{value};
ghost use Rattle.notation.specs.Tree.{Part as Tree·Part};
ghost use Rattle.chars.specs.CharLaws.{Row as CharLaws·Row, quoted_row, class_row_to};
ghost use Rattle.chars.specs.Char.{char_of, part_of};
ghost use Rattle.chars.specs.Meant.{Reads, Ends, left, from_to};

use crate::class::{Part, part_at};
use crate::written::{Read, char_at};
use std::marker::PhantomData;

// What is written piece by piece: a byte of quoted text, or a part of a class.
pub trait Written: Copy {
    // What one stands for.
    ghost Meaning: { Type 0 };

    ghost means: { Self → Meaning };

    // One at the front of some bytes; and a row of them up to a byte, which may be one of these.
    ghost one: { List ℕ → Piece Meaning };

    ghost stops: { ℕ → Bool };

    ghost row_to: { ℕ → List ℕ → Piece (List Meaning) };

    fn read(text: &[u8], at: usize) -> Option<Read<Self>>
        ensures { Reads means (one (drop at text.now)) text.now at result };

    ghost laws: { (stop : ℕ) → stops stop ≡ true → CharLaws·Row one stop (row_to stop) };
}

impl Written for u8 {
    ghost Meaning = { ℕ };

    ghost means = { λ b. b };

    ghost one = { char_of };

    ghost stops = { λ _. true };

    ghost row_to = { λ mark. quote mark fresh };

    ghost laws = { λ mark _. quoted_row mark };

    fn read(text: &[u8], at: usize) -> Option<Read<Self>> {
        char_at(text, at)
    }
}

impl Written for Part {
    ghost Meaning = { Tree·Part };

    ghost means = { from_to };

    ghost one = { part_of };

    ghost stops = { λ b. eqb b 93 };

    ghost row_to = { λ _. parts begin fresh };

    ghost laws = { λ b e. class_row_to b e };

    fn read(text: &[u8], at: usize) -> Option<Read<Self>> {
        part_at(text, at)
    }
}

// Where the row ends that stands from `from` on.
pub(crate) fn row_end<W: Written>(text: &[u8], from: usize, stop: u8) -> Option<usize>
    requires { W.stops stop ≡ true }
    ensures { Ends (W.row_to stop (drop from text.now)) (value (W.row_to stop (drop from text.now))) text.now from result }
{
    // The place is stepped by hand: a piece takes as many bytes as it has.
    let mut i = from;
    while *text.get(i)? != stop {
        i = W::read(text, i)?.next;
    }
    Some(i + 1)
}

// A row that stands whole from a place of a text on.
#[derive(Drop)]
pub struct Row<'a, W: Written> {
    text: &'a [u8],
    at: usize,
    stop: u8,
    of: PhantomData<W>,
    ghost closes: { W.stops stop ≡ true },
    ghost whole: { W.row_to stop (drop at text.now) ≢ no },
}

impl<'a, W: Written> Row<'a, W> {
    pub(crate) fn new(text: &'a [u8], at: usize, stop: u8) -> Self
        requires closes { W.stops stop ≡ true }
        requires whole { W.row_to stop (drop at text.now) ≢ no }
        ensures { left W.row_to result.stop result.text.now result.at ≡ left W.row_to stop text.now at }
    {
        Row {
            text,
            at,
            stop,
            of: PhantomData,
        }
    }
}

impl<'a, W: Written> Iterator for Row<'a, W> {
    type Item = W;

    ghost next_gives = { YieldsFirstBy W.means (λ r. left W.row_to r.stop r.text.now r.at) };

    ghost remaining = { λ r. at_most (length r.text.now - r.at) };

    fn next(&mut self) -> Option<W> {
        if self.text[self.at] == self.stop {
            return None;
        }
        let Read { what, next } = W::read(self.text, self.at)?;
        self.at = next;
        Some(what)
    }
}
