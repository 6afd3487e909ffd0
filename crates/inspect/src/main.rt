// Checks an image and prints what it found: the counts of its grammar, each table's pattern and each node; or the refusal. The
// image is the file that its one argument names, or `rules`.
#![tactic(auto)]

mod listing;

use files::{TakeError, argument};
use image::Head;
use std::io;
use std::rt::Files;

fn main(rt: HostRuntime) -> io::Result<()> {
    let err = rt.stderr();
    if !argument::given(&rt, 1) {
        return inspect(&rt, &err, b"rules");
    }
    if argument::given(&rt, 2) {
        return err.write_all(b"usage: inspect [IMAGE]\n");
    }
    let mut name = [0u8; 4096];
    match argument::word(&rt, 1, &mut name) {
        Ok(length) => inspect(&rt, &err, &name[..length]),
        Err(why) => files::fail(&err, b"the image's name", why),
    }
}

// One byte more than an image may have is enough to see that it has too many.
fn inspect(rt: &(impl Files + Print), err: &impl Print, path: &[u8]) -> io::Result<()> {
    let mut image = [0u8; 16385];
    match files::take(rt, path, &mut image) {
        Ok(n) => describe(rt, &image[..n]),
        Err(TakeError::Unopened(why) | TakeError::Unread(why)) => files::fail(err, path, why),
    }
}

fn describe(out: &impl Print, image: &[u8]) -> io::Result<()> {
    let mut code = [0u32; 524];
    match image::load(image, &mut code) {
        Ok(head) => list(out, image, head, &code),
        Err(refusal) => println!(out;
            "refuse {} {}: {}",
            refusal.fault.number(),
            refusal.place,
            refusal.fault
        ),
    }
}

// The counts, each table's pattern and each node.
fn list(out: &impl Print, image: &[u8], head: Head, code: &[u32; 524]) -> io::Result<()> {
    println!(out; "tables {}", head.tables)?;
    println!(out; "conditions {}", head.conditions)?;
    println!(out; "nodes {}", head.nodes)?;
    println!(out; "start {}", head.start)?;
    for t in 0..head.tables {
        let pattern = code[(512 + t) as usize];
        println!(out; "table {t}: pattern {pattern}")?;
    }
    for n in 0..head.nodes {
        listing::node(out, image, n, code[n as usize])?;
    }
    Ok(())
}
