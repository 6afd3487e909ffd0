// The words that name operators.
ghost use Rattle.notation.specs.Lexer.{word};
ghost use Rattle.lexer.specs.Words.{Worded};

use crate::token::{Leaf, Opener};

// What a word begins: an operator that holds no expression, or one that holds one; or one of these that asks a condition, `<if C>` or `<on C`.
#[derive(Clone, Copy, PartialEq, Eq, Debug)]
pub(crate) enum Word {
    Asks(Leaf),
    Ifs,
    Opens(Opener),
    Ons,
}

const WORDS: [(&[u8], Word); 9] = [
    (b"def", Word::Opens(Opener::Def)),
    (b"block", Word::Opens(Opener::Block)),
    (b"local", Word::Opens(Opener::Local)),
    (b"match", Word::Asks(Leaf::Match)),
    (b"is", Word::Asks(Leaf::Is)),
    (b"isa", Word::Asks(Leaf::Isa)),
    (b"exists", Word::Asks(Leaf::Exists)),
    (b"if", Word::Ifs),
    (b"on", Word::Ons),
];

// What a name begins, if it is one of the words.
pub(crate) fn word_of(name: &[u8]) -> Option<Word>
    ensures { Worded (word name.now) result }
{
    for (spelled, word) in &WORDS {
        if name == *spelled {
            return Some(*word);
        }
    }
    None
}
