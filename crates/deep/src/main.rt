// Recursion through each kind that runs what stands inside it, down to the greatest depth that can be asked for: one line a kind with the
// answer's number, steps and depth. With an argument only the kind of that letter is run, so that the stack it takes can be measured.
#![tactic(auto)]

use std::env::Env;
use std::io;
use yarnspire::{Answer, Limits};

// A kind, the letter that asks for it, and an image with a node of the kind, whose inside is a Call back to it.
#[derive(Clone, Copy)]
struct Kind<'a> {
    letter: u8,
    name: &'a str,
    image: &'a [u8],
}

impl Kind<'_> {
    // Runs the image on the input `A` under the greatest limits.
    fn show(self, out: &impl Print) -> io::Result<()> {
        let mut slots = [0u32; 768];
        let (number, steps, depth) = match yarnspire::recognise(
            self.image,
            b"A",
            Limits::GREATEST,
            &mut slots,
        ) {
            Answer::Accepted { steps, depth, .. } => (0, steps, depth),
            Answer::Failed { steps, depth } => (99, steps, depth),
            Answer::Refused {
                refusal,
                steps,
                depth,
                ..
            } => (refusal.number(), steps, depth),
        };
        let name = self.name;
        println!(out; "{name}: {number} steps {steps} depth {depth}")
    }
}

// The letter that was asked for.
fn letter(env: &impl Env) -> Option<u8> {
    let mut word = [0u8; 8];
    let _ = env.arg(1, &mut word);
    match word[0] {
        0 => None,
        letter => Some(letter),
    }
}

fn main(rt: HostRuntime) -> io::Result<()> {
    let kinds = [
        Kind {
            letter: b'a',
            name: "call",
            image: b"\x01\x00\x00\x01\x00\x09\x00",
        },
        Kind {
            letter: b'b',
            name: "sequence",
            image: b"\x01\x00\x00\x02\x01\x09\x01\x05\x00\x00",
        },
        Kind {
            letter: b'c',
            name: "choice",
            image: b"\x01\x00\x00\x02\x01\x09\x01\x06\x00\x00",
        },
        Kind {
            letter: b'd',
            name: "star",
            image: b"\x01\x00\x00\x02\x01\x09\x01\x07\x00",
        },
        Kind {
            letter: b'e',
            name: "not",
            image: b"\x01\x00\x00\x02\x01\x09\x01\x08\x00",
        },
        Kind {
            letter: b'f',
            name: "block",
            image: b"\x01\x01\x00\x02\x01\x00\x09\x01\x0F\x00\x00",
        },
        Kind {
            letter: b'g',
            name: "local",
            image: b"\x01\x01\x00\x02\x01\x00\x09\x01\x10\x00\x00",
        },
        Kind {
            letter: b'h',
            name: "on",
            image: b"\x01\x00\x01\x02\x01\x09\x01\x12\x00\x01\x00",
        },
        // A pattern that is the Def itself.
        Kind {
            letter: b'i',
            name: "def",
            image: b"\x01\x01\x00\x01\x00\x00\x0A\x00",
        },
        // A pattern that is Is, or nothing where there is no name yet; a name is stored first. The same with Isa.
        Kind {
            letter: b'j',
            name: "is",
            image: b"\x01\x01\x00\x05\x04\x02\x00\x0C\x00\x06\x01\x00\x0A\x00\x05\x03\x01",
        },
        Kind {
            letter: b'k',
            name: "isa",
            image: b"\x01\x01\x00\x05\x04\x02\x00\x0D\x00\x06\x01\x00\x0A\x00\x05\x03\x01",
        },
    ];
    let wanted = letter(&rt);
    for kind in kinds {
        if wanted.is_none_or(|letter| letter == kind.letter) {
            kind.show(&rt)?;
        }
    }
    Ok(())
}
