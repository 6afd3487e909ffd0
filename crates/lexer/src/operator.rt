// Operators in angle brackets.
ghost use Rattle.std.specs.Prelude.{◌≤◌, drop, length};
ghost use Rattle.notation.specs.Lexer.{truth};
ghost use Rattle.lexer.specs.Operators.{asked, Sees, Closes, OperatorAt, AngleAt};
ghost use Rattle.lexer.specs.Tokens.{Stands};

use crate::gap::gap_from;
use crate::name::{Name, name_from};
use crate::token::{Kind, Leaf, Opener, Token, is_at};
use crate::word::{Word, word_of};

// Whether a condition is asked to hold, and the place behind that: a `!` behind a gap asks that it does not.
#[tactic(auto, using(crate::proofs::SignLaws::truth_open))]
fn truth_from(text: &[u8], at: usize) -> Option<(bool, usize)>
    requires { at ≤ length text.now }
    ensures { Sees (truth (drop at text.now)) text.now at result }
{
    let i = gap_from(text, at).ok()?;
    if is_at(text, i, b'!') {
        return Some((false, i + 1));
    }
    Some((true, i))
}

// What the operator of a word is, and the place behind that: only those of a condition have a `!`.
fn kind_from(text: &[u8], word: Word, at: usize) -> Option<(Kind, usize)>
    requires { at ≤ length text.now }
    ensures { Sees (asked word (drop at text.now)) text.now at result }
{
    match word {
        Word::Asks(leaf) => Some((Kind::Leaf(leaf), at)),
        Word::Opens(opener) => Some((Kind::Opens(opener), at)),
        Word::Ifs => {
            let (truth, next) = truth_from(text, at)?;
            Some((Kind::Leaf(Leaf::If(truth)), next))
        }
        Word::Ons => {
            let (truth, next) = truth_from(text, at)?;
            Some((Kind::Opens(Opener::On(truth)), next))
        }
    }
}

// Where the `>` behind a gap ends.
#[tactic(auto, using(crate::proofs::SignLaws::close_open, crate::proofs::SignLaws::close_other))]
fn close_from(text: &[u8], at: usize) -> Option<usize>
    requires { at ≤ length text.now }
    ensures { Closes text.now at result }
{
    let i = gap_from(text, at).ok()?;
    if is_at(text, i, b'>') {
        return Some(i + 1);
    }
    None
}

// The operator of a word, from behind it on.
fn behind_word(text: &[u8], start: usize, word: Word, at: usize) -> Option<Token>
    requires { OperatorAt text.now start word at }
    ensures { Stands text.now start result }
{
    let (kind, behind) = kind_from(text, word, at)?;
    let Name {
        start: name,
        next: end,
    } = name_from(text, behind)?;
    let next = match word {
        Word::Asks(_) | Word::Ifs => close_from(text, end)?,
        Word::Opens(_) | Word::Ons => end,
    };
    Some(Token {
        kind,
        start,
        name,
        next,
    })
}

// The operator whose `<` stands at a place, if one does.
pub(crate) fn operator(text: &[u8], start: usize) -> Option<Token>
    requires { AngleAt text.now start }
    ensures { Stands text.now start result }
{
    let Name { start: from, next } = name_from(text, start + 1)?;
    let word = word_of(&text[from..next])?;
    behind_word(text, start, word, next)
}
