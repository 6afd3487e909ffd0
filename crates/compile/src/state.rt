// What a place is like.
use crate::place::Place;
use chars::written::char_at;
use lexer::token::Kind;
use lexer::tokens::Tokens;

#[derive(Clone, Copy)]
pub enum State {
    // Nothing but a gap stands before it.
    Front,
    // A token behind which an expression is due; and `<def T` or its like, behind which it is due as well.
    Due,
    Opened,
    // Any other token.
    Part,
    // It is in a token, at the name of a table or a condition.
    Inside,
    // Quoted text or a class begins there: no mark closes it on its line; it is closed; it is closed, and has a `\` that is no escape.
    Unclosed,
    Closed,
    Escapes,
}

// What stands before a place; but what ails quoted text or a class, where one begins there.
pub fn state_of(place: Place<'_>) -> State {
    match (before(place), place.rest()) {
        (State::Front, _) => State::Front,
        (_, rest @ [mark @ (b'\'' | b'"'), ..]) => within(rest, *mark),
        (_, rest @ [b'[', ..]) => within(rest, b']'),
        (seen, _) => seen,
    }
}

// What the text has before a place: up to where reading stopped, and to a name that is refused, it is tokens and gaps.
fn before(place: Place<'_>) -> State {
    let mut seen = State::Front;
    for t in Tokens::new(place.text) {
        if place.at <= t.start {
            return seen;
        }
        if place.at < t.next {
            return State::Inside;
        }
        seen = behind(t.kind);
    }
    seen
}

// What a place is like that is behind a token of this kind.
fn behind(kind: Kind) -> State {
    match kind {
        Kind::Head | Kind::Slash | Kind::Left | Kind::And | Kind::Not => State::Due,
        Kind::Opens(_) => State::Opened,
        _ => State::Part,
    }
}

// Quoted text or a class, up to its mark.
fn within(rest: &[u8], mark: u8) -> State {
    let mut found = State::Closed;
    let mut i = 1;
    // A byte as it is written says where the next one begins.
    while i < rest.len() {
        match rest[i] {
            b'\n' | b'\r' => return State::Unclosed,
            b if b == mark => return found,
            _ => {}
        }
        match char_at(rest, i) {
            Some(c) => i = c.next,
            // A `\` that is no escape: one goes on behind the byte that follows it.
            None => {
                found = State::Escapes;
                i += 2;
            }
        }
    }
    State::Unclosed
}
