// The numbers of an image: how one is read.
ghost use Rattle.std.specs.Prelude.{◌≡◌, ◌+◌, ◌<◌, ◌≤◌, drop, length};
ghost use Rattle.format.specs.Number.{number_at, second, third};
ghost use Rattle.reader.specs.Meant.{reading};

use crate::refusal::{Fault, Refusal};

// A number and the place after it. Its own place is the one that it was asked for at: where the reader stood.
#[derive(Clone, Copy)]
pub(crate) struct Number {
    pub value: u32,
    pub next: usize,
}

// The number at a place: groups of seven bits, lowest group first, at most three bytes.
#[tactic(auto, using(crate::proofs::Groups::first_cut, crate::proofs::Groups::first_ends, crate::proofs::Groups::first_more))]
pub(crate) fn number_at(image: &[u8], at: usize) -> Result<Number, Refusal>
    ensures { reading result ≡ number_at image.now at }
{
    if image.len() <= at {
        return Err(Fault::Cut.at(image.len()));
    }
    let b = u32::from(image[at]);
    if b < 128 {
        return Ok(Number {
            value: b,
            next: at + 1,
        });
    }
    second_group(image, at, b - 128)
}

// The same, one group of the number having been read: `low` is what it counts.
#[tactic(auto, using(crate::proofs::Groups::second_cut, crate::proofs::Groups::second_zero, crate::proofs::Groups::second_ends, crate::proofs::Groups::second_more))]
fn second_group(image: &[u8], at: usize, low: u32) -> Result<Number, Refusal>
    requires { (at + 1 ≤ length image.now) × (low < 128) }
    ensures { reading result ≡ second (length image.now) at low (drop (at + 1) image.now) }
{
    if image.len() <= at + 1 {
        return Err(Fault::Cut.at(image.len()));
    }
    let b1 = u32::from(image[at + 1]);
    if b1 == 0 {
        return Err(Fault::BadNumber.at(at));
    }
    if b1 < 128 {
        return Ok(Number {
            value: low + b1 * 128,
            next: at + 2,
        });
    }
    third_group(image, at, low + (b1 - 128) * 128)
}

// The same, two groups having been read. A third that still continues is one too many.
#[tactic(auto, using(crate::proofs::Groups::third_cut, crate::proofs::Groups::third_zero, crate::proofs::Groups::third_ends, crate::proofs::Groups::third_more))]
fn third_group(image: &[u8], at: usize, low: u32) -> Result<Number, Refusal>
    requires { (at + 2 ≤ length image.now) × (low < 16384) }
    ensures { reading result ≡ third (length image.now) at low (drop (at + 2) image.now) }
{
    if image.len() <= at + 2 {
        return Err(Fault::Cut.at(image.len()));
    }
    let b2 = u32::from(image[at + 2]);
    if b2 == 0 {
        return Err(Fault::BadNumber.at(at));
    }
    if b2 < 128 {
        return Ok(Number {
            value: low + b2 * 16384,
            next: at + 3,
        });
    }
    Err(Fault::BadNumber.at(at))
}
