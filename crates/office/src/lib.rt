// What the programs `recognise` and `names` share: the two files, the run under the greatest limits, and what they write of its answer.
#![tactic(auto)]

mod held;

use files::{TakeError, argument};
use std::env::Env;
use std::io;
use std::rt::Files;
use yarnspire::{Answer, Limits};

// What is written of an answer: its line alone, or below it the symbols held.
#[derive(Clone, Copy)]
pub enum Listing {
    Answer,
    Names,
}

// Runs the two files that the arguments name, or `rules` and `text` where there is no argument.
pub fn program(
    rt: &(impl Env + Files + Print),
    err: &impl Print,
    usage: &[u8],
    listing: Listing,
) -> io::Result<()> {
    if !argument::given(rt, 1) {
        return recognise(rt, err, b"rules", b"text", listing);
    }
    if !argument::given(rt, 2) || argument::given(rt, 3) {
        return err.write_all(usage);
    }
    let mut rules = [0u8; 4096];
    let Some(rules) = word(rt, err, 1, b"the first name", &mut rules)? else {
        return Ok(());
    };
    let mut text = [0u8; 4096];
    let Some(text) = word(rt, err, 2, b"the second name", &mut text)? else {
        return Ok(());
    };
    recognise(rt, err, rules, text, listing)
}

// The word of this number, which is `what`; where there is no room for it, standard error says so.
fn word<'a>(
    env: &impl Env,
    err: &impl Print,
    i: usize,
    what: &[u8],
    room: &'a mut [u8],
) -> io::Result<Option<&'a [u8]>> {
    match argument::word(env, i, room) {
        Ok(n) => Ok(Some(&room[..n])),
        Err(why) => {
            files::fail(err, what, why)?;
            Ok(None)
        }
    }
}

// Runs a file of rules on a file of text. One byte more than either may have is enough to see that it has too many.
fn recognise(
    rt: &(impl Files + Print),
    err: &impl Print,
    rules: &[u8],
    text: &[u8],
    listing: Listing,
) -> io::Result<()> {
    let mut image = [0u8; 16385];
    let Some(image) = taken(rt, err, rules, &mut image)? else {
        return Ok(());
    };
    let mut input = [0u8; 65536];
    let Some(input) = taken(rt, err, text, &mut input)? else {
        return Ok(());
    };
    answer(rt, image, input, listing)
}

// What a file has. One that cannot be opened counts as empty, and standard error says so; one that cannot be read to its end gets no answer.
fn taken<'a>(
    files: &impl Files,
    err: &impl Print,
    path: &[u8],
    room: &'a mut [u8],
) -> io::Result<Option<&'a [u8]>> {
    match files::take(files, path, room) {
        Ok(n) => Ok(Some(&room[..n])),
        Err(TakeError::Unopened(why)) => {
            files::fail(err, path, why)?;
            Ok(Some(&[]))
        }
        Err(TakeError::Unread(why)) => {
            files::fail(err, path, why)?;
            Ok(None)
        }
    }
}

// The answer's line, and below it the symbols held.
fn answer(out: &impl Print, image: &[u8], input: &[u8], listing: Listing) -> io::Result<()> {
    let mut slots = [0u32; 768];
    match yarnspire::recognise(image, input, Limits::GREATEST, &mut slots) {
        Answer::Accepted {
            consumed,
            steps,
            depth,
            symbols,
        } => {
            println!(out; "accept {consumed} {steps} {depth} {symbols}")?;
            match listing {
                Listing::Answer => Ok(()),
                Listing::Names => held::list(out, input, &slots, symbols as usize),
            }
        }
        Answer::Failed { steps, depth } => println!(out; "fail {steps} {depth}"),
        Answer::Refused { refusal, place, .. } => {
            println!(out; "refuse {} {place}", refusal.number())
        }
    }
}
