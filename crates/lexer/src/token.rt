// A token of a text.
ghost use Rattle.std.specs.Prelude.{◌≡◌, true, ◌<◌, drop, length, get_or};
ghost use Rattle.notation.specs.Bytes.{letter};
ghost use Rattle.lexer.specs.declared.token.Kind.TheVariants.{Bad};
ghost use Rattle.lexer.specs.Meant.{Lexed, stops};
ghost use Rattle.lexer.specs.Tokens.{simple as Tokens·simple, begins, Single, Signs, Begins, Stands};

use crate::gap::{front, gap_from};
use crate::name::{is_letter, name_end};
use crate::operator::operator;
use chars::class::class_end;
use chars::quoted::quote_end;

// What holds no expression: `.`, quoted text, a class, a name that no `=` follows, `<match T>`, `<is T>`, `<isa T>`, `<exists T>`, and `<if C>`, with whether
// the condition must hold.
#[derive(Clone, Copy, PartialEq, Eq, Debug)]
pub enum Leaf {
    Any,
    Quoted,
    Class,
    Call,
    Match,
    Is,
    Isa,
    Exists,
    If(bool),
}

// What opens an operator in angle brackets: `<def T`, `<block T`, `<local T`, and `<on C`, with whether the condition must hold.
#[derive(Clone, Copy, PartialEq, Eq, Debug)]
pub enum Opener {
    Def,
    Block,
    Local,
    On(bool),
}

// `?`, `*` and `+`.
#[derive(Clone, Copy, PartialEq, Eq, Debug)]
pub enum Suffix {
    Option,
    Star,
    Plus,
}

// What a token is: the text's end, `Name =`, `>`, `)`, `/`, what holds no expression, what opens an operator in angle brackets, `(`, `&`, `!`, a suffix; or it
// is none.
#[derive(Clone, Copy, PartialEq, Eq, Debug)]
pub enum Kind {
    End,
    Head,
    Closes,
    Right,
    Slash,
    Leaf(Leaf),
    Opens(Opener),
    Left,
    And,
    Not,
    After(Suffix),
    Bad,
}

impl Kind {
    // Whether no token is there: the text ends, or what stands there is none.
    pub fn stops(self) -> bool
        ensures { result ≡ stops self }
    {
        match self {
            Kind::End | Kind::Bad => true,
            _ => false,
        }
    }
}

// start: where it begins. name: where its name does, if it has one. next: the place behind it, or behind a gap that follows.
#[derive(Clone, Copy, PartialEq, Eq, Debug)]
pub struct Token {
    pub kind: Kind,
    pub start: usize,
    pub name: usize,
    pub next: usize,
}

// A token whose name, if it has one, is its front.
fn simple(kind: Kind, start: usize, next: usize) -> Token
    ensures { result ≡ Tokens·simple kind start next }
{
    Token {
        kind,
        start,
        name: start,
        next,
    }
}

// What is no token.
fn no_token(start: usize) -> Token
    ensures { result ≡ Tokens·simple Bad start start }
{
    simple(Kind::Bad, start, start)
}

// Whether this byte stands at a place.
#[tactic(auto, using(crate::proofs::PlaceLaws::at_place), unfolding(crate::specs::Tokens::begins))]
pub(crate) fn is_at(text: &[u8], i: usize, b: u8) -> bool
    ensures here { result ≡ begins b (drop i text.now) }
    ensures inside { result ≡ true → i < length text.now }
{
    i < text.len() && text[i] == b
}

// What a byte is by itself.
#[tactic(auto, unfolding(notation::specs::Lexer::token, crate::specs::Meant::meant_by, crate::specs::Meant::leaf_at, crate::specs::Meant::suffix_of))]
fn sign_of(b: u8) -> Option<Kind>
    requires { Single b }
    ensures { Signs b result }
{
    match b {
        b'.' => Some(Kind::Leaf(Leaf::Any)),
        b'>' => Some(Kind::Closes),
        b'(' => Some(Kind::Left),
        b')' => Some(Kind::Right),
        b'/' => Some(Kind::Slash),
        b'&' => Some(Kind::And),
        b'!' => Some(Kind::Not),
        b'?' => Some(Kind::After(Suffix::Option)),
        b'*' => Some(Kind::After(Suffix::Star)),
        b'+' => Some(Kind::After(Suffix::Plus)),
        _ => None,
    }
}

// A name, which is a production's if a `=` follows. If none does, the place behind the gap is given: the next token is the same from there.
#[tactic(auto, using(crate::proofs::TokenLaws::call_open, crate::proofs::TokenLaws::call_here))]
fn named(text: &[u8], start: usize) -> Token
    requires { (start < length text.now) × (letter (get_or text.now start 0) ≡ true) }
    ensures { Begins text.now start result }
{
    match gap_from(text, name_end(text, start + 1)) {
        Err(comment) => simple(Kind::Leaf(Leaf::Call), start, comment.at),
        Ok(i) => {
            if is_at(text, i, b'=') {
                return simple(Kind::Head, start, i + 1);
            }
            simple(Kind::Leaf(Leaf::Call), start, i)
        }
    }
}

// The token whose first byte stands at a place, if one does.
#[tactic(auto, using(crate::proofs::TokenLaws::sign_begins, crate::proofs::TokenLaws::none_begins, crate::proofs::TokenLaws::quote_none, crate::proofs::TokenLaws::quote_begins, crate::proofs::TokenLaws::class_none, crate::proofs::TokenLaws::class_begins))]
fn token_at(text: &[u8], start: usize) -> Option<Token>
    requires { start < length text.now }
    ensures { Stands text.now start result }
{
    let b = text[start];
    if is_letter(b) {
        return Some(named(text, start));
    }
    match b {
        b'"' | b'\'' => Some(simple(
            Kind::Leaf(Leaf::Quoted),
            start,
            quote_end(text, start + 1, b)?,
        )),
        b'[' => Some(simple(Kind::Leaf(Leaf::Class), start, class_end(text, start + 1)?)),
        b'<' => operator(text, start),
        _ => Some(simple(sign_of(b)?, start, start + 1)),
    }
}

// The token behind the gap at a place; or the text ends there, or a comment is open.
#[tactic(auto, using(crate::proofs::LexedLaws::lexed_end))]
fn behind_gap(text: &[u8], at: usize) -> Token
    ensures { Lexed text.now at result }
{
    match gap_from(text, at) {
        Err(comment) => no_token(comment.at),
        Ok(start) => {
            if text.len() <= start {
                return simple(Kind::End, text.len(), text.len());
            }
            token_at(text, start).unwrap_or(no_token(start))
        }
    }
}

// The same, and at once where no gap stands.
pub fn token_from(text: &[u8], at: usize) -> Token
    ensures { Lexed text.now at result }
{
    if text.len() <= at || front(text, at).is_some() {
        return behind_gap(text, at);
    }
    token_at(text, at).unwrap_or(no_token(at))
}
