// A byte of quoted text or of a class, as it is written.
ghost use Rattle.std.specs.Prelude.{◌≡◌, ◌≤◌, ◌<◌, drop, length, IfSome};
ghost use Rattle.notation.specs.Bytes.{hex_digit, escape};
ghost use Rattle.chars.specs.Char.{hex_of, escaped_of, char_of};
ghost use Rattle.chars.specs.Meant.{found, ReadsByte};

// What was read at a place: what is written there, and the place behind it.
#[derive(Clone, Copy)]
pub struct Read<T> {
    pub what: T,
    pub next: usize,
}

// What a hex digit stands for.
fn hex_value(b: u8) -> Option<u8>
    ensures digit { hex_digit b ≡ found result }
    ensures small { IfSome result (λ v. v < 16) }
{
    match b {
        b'0'..=b'9' => Some(b - b'0'),
        b'A'..=b'F' => Some(b - b'A' + 10),
        b'a'..=b'f' => Some(b - b'a' + 10),
        _ => None,
    }
}

// What a byte behind a `\` stands for.
fn escape_value(b: u8) -> Option<u8>
    ensures { escape b ≡ found result }
{
    match b {
        b'n' => Some(b'\n'),
        b'r' => Some(b'\r'),
        b't' => Some(b'\t'),
        b'\\' | b'\'' | b'"' | b'[' | b']' | b'-' | b'^' => Some(b),
        _ => None,
    }
}

// The byte that the two hex digits at a place stand for.
#[tactic(auto, using(crate::proofs::WrittenLaws::over, crate::proofs::WrittenLaws::front), unfolding(crate::specs::Char::hex_of, crate::specs::Char::pair))]
fn hex_at(text: &[u8], at: usize) -> Option<Read<u8>>
    requires { at ≤ length text.now }
    ensures { ReadsByte (hex_of (drop at text.now)) text.now at result }
{
    if text.len() - at < 2 {
        return None;
    }
    let high = hex_value(text[at])?;
    let low = hex_value(text[at + 1])?;
    Some(Read {
        what: high * 16 + low,
        next: at + 2,
    })
}

// The byte that the bytes behind a `\` stand for. Not written into `char_at`, which stays small enough to be written into its own callers.
#[inline(never)]
#[tactic(auto, using(crate::proofs::WrittenLaws::over, crate::proofs::WrittenLaws::front), unfolding(crate::specs::Char::escaped_of, crate::specs::Char::one))]
fn escaped_at(text: &[u8], at: usize) -> Option<Read<u8>>
    ensures { ReadsByte (escaped_of (drop at text.now)) text.now at result }
{
    let b = *text.get(at)?;
    if b == b'x' {
        return hex_at(text, at + 1);
    }
    Some(Read {
        what: escape_value(b)?,
        next: at + 1,
    })
}

// The byte that is written at a place.
#[inline]
#[tactic(auto, using(crate::proofs::WrittenLaws::over, crate::proofs::WrittenLaws::front), unfolding(crate::specs::Char::char_of))]
pub fn char_at(text: &[u8], at: usize) -> Option<Read<u8>>
    ensures { ReadsByte (char_of (drop at text.now)) text.now at result }
{
    match *text.get(at)? {
        b'\\' => escaped_at(text, at + 1),
        b'\n' | b'\r' => None,
        b => Some(Read {
            what: b,
            next: at + 1,
        }),
    }
}
