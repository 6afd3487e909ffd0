// A text's names: a letter, and then letters and digits as far as they go. `_` is a letter.
ghost use Rattle.std.specs.Prelude.{◌≡◌, ◌+◌, ◌<◌, ◌≤◌, drop, length};
ghost use Rattle.std.specs.List.{take_while};
ghost use Rattle.notation.specs.Bytes.{letter, name_byte};
ghost use Rattle.lexer.specs.Names.{NameEnds, Finds};

use crate::gap::gap_from;

// Where the name behind a gap begins and the place behind it.
#[derive(Clone, Copy)]
pub(crate) struct Name {
    pub start: usize,
    pub next: usize,
}

pub(crate) fn is_letter(b: u8) -> bool
    ensures { result ≡ letter b }
{
    matches!(b, b'A'..=b'Z' | b'a'..=b'z' | b'_')
}

// Whether a byte is a name's.
pub fn is_name(b: u8) -> bool
    ensures { result ≡ name_byte b }
{
    is_letter(b) || matches!(b, b'0'..=b'9')
}

// How many bytes of a name are in front.
fn name_length(rest: &[u8]) -> usize
    ensures { result ≡ length (take_while name_byte rest.now) }
{
    rest.iter().take_while(|b| is_name(**b)).count()
}

// The place behind the bytes of a name.
#[tactic(auto, using(crate::proofs::NameLaws::behind_is))]
pub fn name_end(text: &[u8], from: usize) -> usize
    ensures { NameEnds text.now from result }
{
    match text.get(from..) {
        Some(rest) => from + name_length(rest),
        None => from,
    }
}

// The name behind a gap.
pub(crate) fn name_from(text: &[u8], at: usize) -> Option<Name>
    requires { at ≤ length text.now }
    ensures { Finds text.now at result }
{
    let start = gap_from(text, at).ok()?;
    if !is_letter(*text.get(start)?) {
        return None;
    }
    Some(Name {
        start,
        next: name_end(text, start + 1),
    })
}
