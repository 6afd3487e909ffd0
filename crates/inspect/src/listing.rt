// The lines of a listing.
use image::node::Node;
use std::{fmt, io};

// A byte as it is listed: in quotes, or as two hexadecimal digits.
#[derive(Clone, Copy)]
struct Listed(u8);

impl fmt::Display for Listed {
    fn fmt<W: fmt::Write>(&self, f: &mut fmt::Formatter<W>) -> fmt::Result {
        match self.0 {
            b'!'..=b'~' => write!(f, "'{}'", char::from(self.0)),
            _ => write!(f, "{:02x}", self.0),
        }
    }
}

// A node's number and what it is.
pub fn node(out: &impl Print, image: &[u8], n: u32, word: u32) -> io::Result<()> {
    print!(out; "node {n}: ")?;
    match image::node_of(word) {
        Node::Empty => println!(out; "Empty"),
        Node::Byte(b) => println!(out; "Byte {}", Listed(b)),
        Node::Range(lo, hi) => println!(out; "Range {} {}", Listed(lo), Listed(hi)),
        Node::Any => println!(out; "Any"),
        Node::Text(place, count) => text(out, image, place, count),
        Node::Sequence(a, b) => println!(out; "Sequence {a} {b}"),
        Node::Choice(a, b) => println!(out; "Choice {a} {b}"),
        Node::Star(a) => println!(out; "Star {a}"),
        Node::Not(a) => println!(out; "Not {a}"),
        Node::Call(a) => println!(out; "Call {a}"),
        Node::Def(t) => println!(out; "Def {t}"),
        Node::Match(t) => println!(out; "Match {t}"),
        Node::Is(t) => println!(out; "Is {t}"),
        Node::Isa(t) => println!(out; "Isa {t}"),
        Node::Exists(t) => println!(out; "Exists {t}"),
        Node::Block(t, a) => println!(out; "Block {t} {a}"),
        Node::Local(t, a) => println!(out; "Local {t} {a}"),
        Node::If(c, truth) => println!(out; "If {c} {}", u32::from(truth)),
        Node::On(c, truth, a) => println!(out; "On {c} {} {a}", u32::from(truth)),
    }
}

// The bytes of a text, which stand in the image.
fn text(out: &impl Print, image: &[u8], place: u32, count: u32) -> io::Result<()> {
    print!(out; "Text")?;
    let start = place as usize;
    if let Some(bytes) = image.get(start..start + count as usize) {
        for &b in bytes {
            print!(out; " {}", Listed(b))?;
        }
    }
    println!(out)
}
