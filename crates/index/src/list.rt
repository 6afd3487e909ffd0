// Names of a text as a list of places: a search among them, and one more name kept.
ghost use Rattle.std.specs.Prelude.{◌≡◌, ◌≤◌, ◌<◌, length};
ghost use Rattle.notation.specs.At.{name_at};
ghost use Rattle.index.specs.Listed.{names_at, Ascending, Seeks, put_in, Keeps};

use crate::order::order_at;
use std::cmp::Ordering;

// How many names there are now, where the name stands, and whether it is fresh among them. All three are there for a fresh name and for an old one.
#[derive(Clone, Copy)]
pub struct Kept {
    pub count: usize,
    pub index: usize,
    pub fresh: bool,
}

// Plain arguments, and the order is asked for: docs/DECISIONS.md names this promise and what each caller knows it from.
// Looks for the name at p among the names at the places of a list, by halves: where it stands, or where it belongs if it is not there. The loop is by hand: it ends
// where the name is found, and std's search by halves goes on to the last half.
pub fn seek(text: &[u8], at: &[u16], p: usize) -> Result<usize, usize>
    requires { Ascending (names_at text.now at.now (length at.now)) }
    ensures { Seeks (name_at text.now p) (names_at text.now at.now (length at.now)) result }
{
    let mut low = 0;
    let mut high = at.len();
    while low < high {
        let index = low + (high - low) / 2;
        match order_at(text, p, usize::from(at[index])) {
            Ordering::Less => high = index,
            Ordering::Equal => return Ok(index),
            Ordering::Greater => low = index + 1,
        }
    }
    Err(low)
}

// The array is the caller's and its front is counted beside it: no memory is taken here.
// Puts p at an index of the first `count` numbers: those from there on move one up.
pub fn put(at: &mut [u16], count: usize, index: usize, p: u16)
    requires { (index ≤ count) × (count < length at.old) }
    ensures { at.new ≡ put_in at.old count index p }
{
    at.copy_within(index..count, index + 1);
    at[index] = p;
}

// Keeps the name at p: where it is not among the first `count` names yet, it is put in.
pub fn keep(text: &[u8], at: &mut [u16], count: usize, p: usize) -> Kept
    requires { (count < length at.old) × (p ≤ 65535) × Ascending (names_at text.now at.old count) }
    ensures { Keeps text.now at.old count p at.new result }
{
    match seek(text, &at[..count], p) {
        Ok(index) => Kept {
            count,
            index,
            fresh: false,
        },
        Err(index) => {
            put(at, count, index, p as u16);
            Kept {
                count: count + 1,
                index,
                fresh: true,
            }
        }
    }
}
