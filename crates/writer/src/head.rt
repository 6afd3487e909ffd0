// The front of an image: its heading and the nodes of its tables' patterns.
ghost use Rattle.std.specs.Prelude.{[], ◌∷◌, ◌++◌, ◌+◌, ◌*◌, ◌<◌, ◌≤◌, length};
ghost use Rattle.format.specs.Written.{numbers};
ghost use Rattle.writer.specs.Put.{Wrote, AllSmall};

use crate::out::put_row;

// How many tables, conditions and nodes there are, and the start node; then the patterns.
pub fn write_head(
    out: &mut [u8],
    switches: usize,
    nodes: usize,
    start: usize,
    patterns: &[u16],
) -> usize
    requires { (32 ≤ length out.old) × (length patterns.now ≤ 8) × AllSmall (switches ∷ nodes ∷ start ∷ patterns.now) }
    ensures { Wrote out.old 0 out.new result (numbers (1 ∷ length patterns.now ∷ switches ∷ nodes ∷ start ∷ []) ++ numbers patterns.now) }
{
    let heading = [
        1,
        patterns.len() as u16,
        switches as u16,
        nodes as u16,
        start as u16,
    ];
    let end = put_row(out, 0, &heading);
    put_row(out, end, patterns)
}
