// Recognises the file `text` by the grammar whose image is the file `rules`, and says what came of it in one line.
#![tactic(auto)]

use office::Listing;
use std::io;

fn main(rt: HostRuntime) -> io::Result<()> {
    let err = rt.stderr();
    office::program(
        &rt,
        &err,
        b"usage: recognise [RULES TEXT]\n",
        Listing::Answer,
    )
}
