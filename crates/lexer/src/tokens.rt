// A text's tokens, one after the other.
ghost use Rattle.std.specs.Prelude.{◌≡◌};
ghost use Rattle.std.specs.Iterator.{at_most};
ghost use Rattle.lexer.specs.Stream.{ahead_of, Gives};

use crate::token::{Token, token_from};

// The tokens from a place of a text on, up to the text's end or to what is none.
#[derive(Clone, Copy, Debug)]
pub struct Tokens<'a> {
    text: &'a [u8],
    at: usize,
}

impl<'a> Tokens<'a> {
    // The tokens of a whole text.
    pub fn new(text: &'a [u8]) -> Tokens<'a>
        ensures text { result.text.now ≡ text.entry.now }
        ensures front { result.at ≡ 0 }
    {
        Tokens { text, at: 0 }
    }
}

impl<'a> Iterator for Tokens<'a> {
    type Item = Token;

    ghost next_gives = { Gives };

    ghost remaining = { λ s. at_most (ahead_of s) };

    #[tactic(auto, using(crate::proofs::StreamLaws::nearer))]
    fn next(&mut self) -> Option<Token> {
        let t = token_from(self.text, self.at);
        if t.kind.stops() {
            return None;
        }
        self.at = t.next;
        Some(t)
    }
}
