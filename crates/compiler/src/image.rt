// The image of a text that has passed every rule but those on the image itself.
ghost use Rattle.std.specs.Prelude.{◌≡◌, ◌++◌, ◌+◌, ◌≤◌, length};
ghost use Rattle.compiler.specs.Compiles.{Compiles};
ghost use Rattle.compiler.specs.Images.{Lends, Makes, Lists, Numbers};
ghost use Rattle.compiler.specs.Judges.{Passed};

use crate::refusal::{Refusal, Slip};
use emitter::emit::emit;
use naming::gather::{Sort, gather};
use naming::image::over_image;
use naming::roots::fill_roots;
use writer::head::write_head;
use writer::named::Names;
use writer::node::Made;

// Puts an image, which is a head and nodes, to the front of the lent buffer. 25 if there is no room for it.
fn lend(head: &[u8], nodes: &[u8], image: &mut [u8]) -> Result<u32, Refusal>
    requires { length head.now + length nodes.now ≤ 65535 }
    ensures { Lends (head.now ++ nodes.now) image.old image.new result }
{
    let long = head.len() + nodes.len();
    if image.len() < long {
        return Err(Refusal {
            slip: Slip::NoRoom,
            place: 0,
        });
    }
    image[..head.len()].copy_from_slice(head);
    image[head.len()..long].copy_from_slice(nodes);
    Ok(long as u32)
}

// Makes the front of an image whose nodes are written, and lends the whole. 24 if it is too long.
fn conclude(
    text: &[u8],
    switches: usize,
    start: usize,
    out: &[u8],
    patterns: &[u16],
    ends: &[u16],
    made: Made,
    image: &mut [u8],
) -> Result<u32, Refusal>
    requires { (length text.now ≤ 65535) × Makes text.now switches start out.now patterns.now ends.now made }
    ensures { Compiles text.now image.old image.new result }
{
    let mut head = [0u8; 32];
    let base = write_head(&mut head, switches, made.nodes, start, patterns);
    let over = over_image(text, base, ends);
    let long = made.length;
    match over {
        Some(place) => Err(Refusal {
            slip: Slip::OverLimit,
            place,
        }),
        None => lend(&head[..base], &out[..long], image),
    }
}

// Writes the nodes of a text that has passed, whose productions' nodes are in `roots`, and makes its image.
fn finish(names: Names, start: usize, image: &mut [u8]) -> Result<u32, Refusal>
    requires { (length names.text.now ≤ 65535) × Numbers names.text.now names.heads.now names.roots.now names.tables.now names.switches.now start }
    ensures { Compiles names.entry.text.now image.old image.new result }
{
    let mut out = [0u8; 33792];
    let mut patterns = [0u16; 8];
    let mut ends = [0u16; 512];
    let count = names.tables.len();
    let made = emit(names, &mut out, &mut patterns[..count], &mut ends);
    conclude(
        names.text,
        names.switches.len(),
        start,
        &out,
        &patterns[..count],
        &ends,
        made,
        image,
    )
}

// Finds the nodes of the productions of a text that has passed, and makes its image. `heads`, `tables` and `switches` are the places of its names.
fn build(
    text: &[u8],
    heads: &[u16],
    tables: &[u16],
    switches: &[u16],
    image: &mut [u8],
) -> Result<u32, Refusal>
    requires { (length text.now ≤ 65535) × Lists text.now heads.now tables.now switches.now }
    ensures { Compiles text.now image.old image.new result }
{
    let mut roots = [0u16; 512];
    let count = heads.len();
    let counted = fill_roots(text, heads, &mut roots[..count]);
    let start = counted.start;
    let names = Names {
        text,
        heads,
        roots: &roots[..count],
        tables,
        switches,
    };
    finish(names, start, image)
}

// Gathers the names of a text that has passed, and makes its image. A frame of its own, as `judge` has.
#[inline(never)]
pub(crate) fn write(text: &[u8], image: &mut [u8]) -> Result<u32, Refusal>
    requires { (length text.now ≤ 65535) × Passed text.now }
    ensures { Compiles text.now image.old image.new result }
{
    let mut heads = [0u16; 513];
    let mut tables = [0u16; 9];
    let mut switches = [0u16; 9];
    let named = gather(text, &mut heads, Sort::Productions);
    let defined = gather(text, &mut tables, Sort::Tables);
    let asked = gather(text, &mut switches, Sort::Conditions);
    let h = named.count;
    let t = defined.count;
    let s = asked.count;
    build(text, &heads[..h], &tables[..t], &switches[..s], image)
}
