// What is wrong, in words.
use crate::place::Place;
use crate::show::dots;
use crate::state::{State, state_of};
use lexer::name::name_end;
use std::io;
use yarnspire::Slip;

// Says it, with what stands at the place where the words have an @.
pub fn reason(err: &impl Print, slip: Slip, place: Place<'_>) -> io::Result<()> {
    let words = words_for(slip, place);
    match words.split_once('@') {
        Some((before, behind)) => {
            print!(err; "{before}")?;
            thing(err, place.rest())?;
            print!(err; "{behind}")
        }
        None => print!(err; "{words}"),
    }
}

// The words for a slip at a place.
fn words_for(slip: Slip, place: Place<'_>) -> &'static str {
    let state = state_of(place);
    let rest = place.rest();
    match slip {
        Slip::Unread if 65535 < place.text.len() => "the text is over 65,535 bytes",
        Slip::Unread => unread(state, rest),
        Slip::Undefined => match state {
            State::Inside => "no table is called @: a table is made by <def TABLE expression>",
            _ =>
                "no production is called @: is it misspelt, is its = missing, or is it text that needs quotes?",
        },
        Slip::Twice => "@ is defined a second time",
        Slip::Unlike => "this def is not like the first def of its table, and all must be alike",
        Slip::OverLimit => match (state, rest) {
            (State::Inside, _) => "with @ the grammar has over 8 tables, or over 8 conditions",
            (_, [b'\'' | b'"', ..]) => "this quoted text is over 64 bytes",
            _ => "with @ the grammar has over 512 nodes, or an image of over 16,384 bytes",
        },
        Slip::NoRoom => "the image does not fit its buffer",
    }
}

// Where reading stopped.
fn unread(state: State, rest: &[u8]) -> &'static str {
    match state {
        _ if rest.is_empty() => at_end(state),
        State::Unclosed | State::Closed | State::Escapes => ill_written(state, rest),
        State::Front => foreign(rest).unwrap_or(at_front(rest)),
        _ => foreign(rest).unwrap_or(misplaced(state, rest)),
    }
}

// At the text's end.
fn at_end(state: State) -> &'static str {
    match state {
        State::Front => "there is no production in this text",
        State::Due | State::Opened => "the text ends where an expression is due",
        _ => "the text ends before the ) or > of what is open",
    }
}

// What ails quoted text or a class.
fn ill_written(state: State, rest: &[u8]) -> &'static str {
    match (state, rest) {
        (State::Unclosed, [b'[', ..]) => "this class is not closed on its line: ] is missing",
        (State::Unclosed, _) => "this quoted text is not closed on its line: @ is missing",
        (State::Closed, [b'[', b']', ..]) => "this class is empty",
        (State::Closed, [b'[', b'^', ..]) => {
            "[^ does not mean \"none of\" here: write !'a' . for any byte but a, and [\\^] for the byte ^"
        }
        (State::Closed, _) => "in this class a range goes down",
        _ => {
            "a \\ in this has none of n r t \\ ' \" [ ] - ^ behind it, nor x and two hexadecimal digits; the byte \\ is \\\\"
        }
    }
}

// What begins nothing in the notation.
fn foreign(rest: &[u8]) -> Option<&'static str> {
    let words = match rest {
        [b'/', b'*', ..] => "this comment is not closed: */ is missing",
        [b'|', ..] => "a choice is written with /",
        [b'#', ..] | [b'-', b'-', ..] => "a comment begins with //",
        [b':', ..] | [b'-', b'>', ..] => "a production is written Name = expression",
        [b'-', ..] => "a name has letters, digits and _ alone; a range is written [a-z]",
        [b'0'..=b'9', ..] => "a name begins with a letter or _, and text needs quotes",
        [b'\\', ..] => {
            "a \\ stands only in quoted text and classes: is a ' or \" missing, or one too many, before it?"
        }
        [b'`', ..] => "quoted text stands between ' or \"",
        [b'{', ..] => "there is no {n}: write e e for two",
        [b'$', ..] => "the end of the input is !., that of a line '\\n'",
        [b'^', ..] => "no ^ is needed: reading starts at the front of the input",
        [b',', ..] => "the parts of a row have no comma between them",
        [b'~', ..] => "\"not\" is !",
        [b']', ..] => "no class is open that this ] closes",
        [0xef, 0xbb, 0xbf, ..] => {
            "this is a byte-order mark (EF BB BF): save the text as UTF-8 without one"
        }
        [0xc2, 0xa0, ..] => "this is a no-break blank: type a plain one",
        [0xe2, 0x80, ..] => "this is a curly quote, a long dash or the like: type a plain one",
        [128..=255, ..] => {
            "a letter beyond ASCII stands only in quoted text, classes and comments"
        }
        [0..=31 | 127, ..] => "nothing in the notation begins with the byte @",
        _ => return None,
    };
    Some(words)
}

// What may begin something, but not a text.
fn at_front(rest: &[u8]) -> &'static str {
    match rest {
        [b'a'..=b'z' | b'A'..=b'Z' | b'_', ..] => "a production is a name, = and an expression",
        [b';', ..] => "a comment begins with //",
        _ => "a text begins with a production: a name without quotes, = and an expression",
    }
}

// What may begin something, but not behind what stands before it.
fn misplaced(state: State, rest: &[u8]) -> &'static str {
    match (state, rest) {
        (_, [b'a'..=b'z' | b'A'..=b'Z' | b'_', ..]) => {
            "the production before this one is not finished: an expression is missing, or the ) or > of what is open; if = is text, write '='"
        }
        (_, [b';', ..]) => "a production has no mark at its end",
        (_, [b'<', b'-', ..]) => "a production is written Name = expression",
        (_, [b'<', ..]) => {
            "this is none of <def T e>, <block T e>, <local T e>, <on C e>, <match T>, <is T>, <isa T>, <exists T>, <if C>"
        }
        (State::Due | State::Opened, [b'/', ..]) => "an expression is missing before this /",
        (State::Due, [b')', ..]) => "an expression is missing before this ); an empty one is ''",
        (State::Opened, [b')', ..]) => "an expression is missing before this )",
        (State::Due, [b'>', ..]) => "an expression is missing before this >",
        (State::Opened, [b'>', ..]) => {
            "an expression is missing before this >, as in <def TABLE expression>"
        }
        (_, [b')', ..]) => "the ( of this ) is missing, or a > before it",
        (_, [b'>', ..]) => "the < of this > is missing, or a ) before it",
        (_, [b'?' | b'*' | b'+', ..]) => "? * and + stand behind an expression",
        (_, [b'=', ..]) => {
            "= stands only behind the name of a production; if it is text, write '='"
        }
        _ => "nothing in the notation begins with @",
    }
}

// The name at a place, of which a long one is cut; or the byte there.
fn thing(err: &impl Print, rest: &[u8]) -> io::Result<()> {
    match rest {
        [] => Ok(()),
        [b @ (0..=31 | 127), ..] => print!(err; "{b:02x}"),
        _ => {
            let whole = rest.get(..name_end(rest, 0).max(1)).unwrap_or(rest);
            let part = whole.get(..64).unwrap_or(whole);
            err.write_all(part)?;
            print!(err; "{}", dots(part, whole, ""))
        }
    }
}
