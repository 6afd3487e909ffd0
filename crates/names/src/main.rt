// Like `recognise`, and lists below the answer the symbols that are held: table, start, end and text.
#![tactic(auto)]

use office::Listing;
use std::io;

fn main(rt: HostRuntime) -> io::Result<()> {
    let err = rt.stderr();
    office::program(&rt, &err, b"usage: names [RULES TEXT]\n", Listing::Names)
}
