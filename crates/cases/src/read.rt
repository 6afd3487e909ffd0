// A case as a line of text. It begins with the letter of a function and the limits; then come the name, the image and the input, in fields that end at a
// `;`, with one space behind it. Numbers are decimal; bytes are two hexadecimal digits each, with one other character between.
ghost use Rattle.std.specs.Prelude.{◌≤◌};

use crate::show::Case;
use std::str;
use yarnspire::Limits;

// The case of a line; the bytes of its image and its input are put in the two rooms.
pub fn case_of<'a>(
    line: &'a [u8],
    image_room: &'a mut [u8; 64],
    input_room: &'a mut [u8; 64],
) -> Case<'a> {
    let (_, rest) = field(line);
    let (name, rest) = field(rest);
    let (image, rest) = field(rest);
    let (input, _) = field(rest);
    Case {
        name,
        image: bytes(image, image_room),
        input: quoted(input).unwrap_or(bytes(input, input_room)),
        limits: limits(line),
    }
}

// The first field, and what stands behind it.
fn field(s: &[u8]) -> (&[u8], &[u8]) {
    match s.iter().position(|b| *b == b';') {
        Some(end) => (&s[..end], s.get(end + 2..).unwrap_or(&[])),
        None => (s, &[]),
    }
}

// The numbers behind the first space, the second and the third.
fn limits(line: &[u8]) -> Limits {
    Limits {
        steps: number(line, 1),
        depth: number(line, 2),
        room: number(line, 3),
    }
}

// The number behind so many spaces.
fn number(line: &[u8], spaces: usize) -> u32 {
    line.split(|b| *b == b' ').nth(spaces).map_or(0, decimal)
}

// The decimal number at the front; 0 where there is none, or one of over 32 bits.
fn decimal(s: &[u8]) -> u32 {
    let end = s
        .iter()
        .position(|b| !b.is_ascii_digit())
        .unwrap_or(s.len());
    let digits = str::from_utf8(&s[..end]).unwrap_or("");
    digits.parse().unwrap_or(0)
}

// The value of a hexadecimal digit. std's `to_digit` takes small letters too, which the lines do not have.
fn digit(b: u8) -> u8
    ensures { result ≤ 15 }
{
    match b {
        b'0'..=b'9' => b - b'0',
        b'A'..=b'F' => b - b'A' + 10,
        _ => 0,
    }
}

// The bytes that a text writes, up to 64.
fn bytes<'a>(text: &[u8], room: &'a mut [u8; 64]) -> &'a [u8] {
    for (byte, digits) in room.iter_mut().zip(text.chunks(3)) {
        if let [high, low, ..] = digits {
            *byte = digit(*high) * 16 + digit(*low);
        }
    }
    room.get(..(text.len() + 1) / 3).unwrap_or(room)
}

// What stands between quotes.
fn quoted(s: &[u8]) -> Option<&[u8]> {
    match s {
        [b'"', inside @ .., _] => Some(inside),
        _ => None,
    }
}
