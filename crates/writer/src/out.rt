// Bytes and numbers put down in a lent buffer, one after the other.
ghost use Rattle.std.specs.Prelude.{◌≡◌, [], ◌∷◌, ◌+◌, ◌<◌, ◌≤◌, length};
ghost use Rattle.format.specs.Number.{groups};
ghost use Rattle.format.specs.Written.{numbers};
ghost use Rattle.writer.specs.Put.{Wrote};

// A byte.
pub(crate) fn put_byte(out: &mut [u8], at: usize, b: u8) -> usize
    requires { at < length out.old }
    ensures { Wrote out.old at out.new result (b ∷ []) }
{
    out[at] = b;
    at + 1
}

// A number in groups of seven bits, the lowest first. Each but the last has 128 added.
pub(crate) fn put_number(out: &mut [u8], at: usize, n: u16) -> usize
    requires { at + length (groups n) ≤ length out.old }
    ensures { Wrote out.old at out.new result (groups n) }
{
    let mut next = at;
    let mut left = n;
    // No range: it goes on while more than a group is left.
    while 128 <= left {
        out[next] = (left % 128 + 128) as u8;
        next += 1;
        left = left / 128;
    }
    out[next] = left as u8;
    next + 1
}

// A row of numbers, one after the other.
pub(crate) fn put_row(out: &mut [u8], at: usize, row: &[u16]) -> usize
    requires { at + length (numbers row.now) ≤ length out.old }
    ensures { Wrote out.old at out.new result (numbers row.now) }
{
    let mut next = at;
    for n in row {
        next = put_number(out, next, *n);
    }
    next
}
