// The walk over a text, one symbol at a time.
ghost use Rattle.std.specs.Prelude.{◌≡◌, ◌≤◌, length};
ghost use Rattle.notation.specs.Stream.{start, want};
ghost use Rattle.walker.specs.Acts.{Waiting};
ghost use Rattle.walker.specs.Steps.{closed_as, shown_as, Steps};
ghost use Rattle.walker.specs.Tells.{Tells};
ghost use Rattle.walker.specs.Walks.{Walks, Begins, Passing, Nexts};

use crate::act::{Act, Mode, Open, one_act, shuts};
use lexer::token::{Kind, Leaf, Opener, Suffix, Token, token_from};

// What a walk puts out: a production begins; what holds no expression; an operator in angle brackets begins, and ends; and behind its operand or its two a prefix,
// a suffix, a row or alternatives.
#[derive(Clone, Copy, PartialEq, Eq)]
pub enum Symbol {
    Head,
    Leaf(Leaf),
    Opens(Opener),
    Closes,
    And,
    Not,
    After(Suffix),
    Sequence,
    Choice,
}

// height: how much is open, in the front of the stack. token: the next one.
#[derive(Clone, Copy)]
pub struct Walk {
    pub mode: Mode,
    pub height: usize,
    pub token: Token,
}

// A symbol, with the token that was taken for it, which is any where it closes what is open, and with what is left of the walk; or the walk has ended, or it is broken.
#[derive(Clone, Copy)]
pub enum Step {
    Symbol {
        symbol: Symbol,
        token: Token,
        walk: Walk,
    },
    Ended,
    Broken,
}

// What one act of a walk comes to: the symbol that it puts out, if it does, and what is left of the walk; or the walk has ended, or it is broken.
#[derive(Clone, Copy)]
enum Turn {
    On(Option<Symbol>, Walk),
    Ended,
    Broken,
}

// Where the reading of a text that is not of the notation stops.
#[derive(Clone, Copy, PartialEq, Eq)]
pub struct Unread {
    pub at: usize,
}

// The symbol that closing what waits puts out.
fn closed(last: Open) -> Symbol
    requires { Waiting last }
    ensures { result ≡ closed_as last }
{
    match last {
        Open::Choice => Symbol::Choice,
        Open::Sequence => Symbol::Sequence,
        Open::And => Symbol::And,
        _ => Symbol::Not,
    }
}

// The symbol that a token puts out, if it does.
fn shown(kind: Kind) -> Option<Symbol>
    ensures { result ≡ shown_as kind }
{
    match kind {
        Kind::Head => Some(Symbol::Head),
        Kind::Closes => Some(Symbol::Closes),
        Kind::Leaf(leaf) => Some(Symbol::Leaf(leaf)),
        Kind::Opens(opener) => Some(Symbol::Opens(opener)),
        Kind::After(suffix) => Some(Symbol::After(suffix)),
        _ => None,
    }
}

// The text and the stack are parameters beside the walk: `next` is promised of any three that fit, so no type holds them together.
impl Walk {
    // A walk over a whole text.
    pub fn over(text: &[u8]) -> Walk
        ensures { Begins text.now 0 start result }
    {
        Walk {
            mode: Mode::Start,
            height: 0,
            token: token_from(text, 0),
        }
    }

    // A walk over what stands from a place on, where an expression must begin there. Its mode is another than `over`'s, and so is what it is promised of.
    pub fn inside(text: &[u8], at: usize) -> Walk
        ensures { Begins text.now at want result }
    {
        Walk {
            mode: Mode::Want,
            height: 0,
            token: token_from(text, at),
        }
    }

    // One act of the walk.
    fn advance(self, text: &[u8], stack: &mut [Open; 65536]) -> Turn
        requires { (length stack.old ≡ 65536) × (length text.now ≤ 65535) × Walks text.now self }
        ensures { Steps text.now stack.old stack.new self result }
    {
        match one_act(stack, self.height, self.mode, self.token.kind) {
            Act::Pop(last) => Turn::On(
                Some(closed(last)),
                Walk {
                    mode: Mode::Behind,
                    height: self.height - 1,
                    token: self.token,
                },
            ),
            Act::Shift(mode, height) => Turn::On(
                shown(self.token.kind),
                Walk {
                    mode,
                    height,
                    token: token_from(text, self.token.next),
                },
            ),
            Act::Ended => Turn::Ended,
            Act::Broken => Turn::Broken,
        }
    }

    // The walk past the `(` at its front, where an item must begin: acts that put out nothing, many at once.
    fn past_open(self, text: &[u8], stack: &mut [Open; 65536]) -> Walk
        requires { (length stack.old ≡ 65536) × (length text.now ≤ 65535) × Walks text.now self }
        ensures { Passing text.now stack.old stack.new self result }
    {
        let mut w = self;
        // No iterator: each step opens one more in the stack that is lent.
        while w.mode == Mode::Want && w.token.kind == Kind::Left {
            stack[w.height] = Open::Bracket;
            w.height += 1;
            w.token = token_from(text, w.token.next);
        }
        w
    }

    // The walk past the `)` at its front, behind a primary, that close a `(`.
    fn past_shut(self, text: &[u8], stack: &[Open; 65536]) -> Walk
        requires { (length text.now ≤ 65535) × Walks text.now self }
        ensures { Passing text.now stack.now stack.now self result }
    {
        let mut w = self;
        // No iterator: each step closes one of those that are open in the stack.
        while w.mode == Mode::Behind && shuts(stack, w.height, w.token.kind) {
            w.height -= 1;
            w.token = token_from(text, w.token.next);
        }
        w
    }

    // The next symbol of the walk, past the acts that put out none.
    pub fn next(self, text: &[u8], stack: &mut [Open; 65536]) -> Step
        requires { (length stack.old ≡ 65536) × (length text.now ≤ 65535) × Walks text.now self }
        ensures { Nexts text.now stack.old stack.new self result }
    {
        let mut w = self;
        // No iterator: each act is lent the stack.
        loop {
            match w.advance(text, stack) {
                Turn::On(Some(symbol), walk) => {
                    return Step::Symbol {
                        symbol,
                        token: w.token,
                        walk,
                    };
                }
                Turn::On(None, walk) => w = walk.past_open(text, stack).past_shut(text, stack),
                Turn::Ended => return Step::Ended,
                Turn::Broken => return Step::Broken,
            }
        }
    }
}

// Whether a text is of the notation; if not, where its reading stops.
pub fn read_whole(text: &[u8]) -> Result<(), Unread>
    requires { length text.now ≤ 65535 }
    ensures { Tells text.now result }
{
    let mut stack = [Open::Bracket; 65536];
    let mut w = Walk::over(text);
    // No iterator: each act is lent the stack.
    loop {
        match w.advance(text, &mut stack) {
            Turn::On(_, walk) => w = walk,
            Turn::Ended => return Ok(()),
            Turn::Broken => return Err(Unread { at: w.token.start }),
        }
    }
}
