// Cases that are too large for a line, or lend another number of slots.
ghost use Rattle.std.specs.Prelude.{◌≤◌};

use crate::show::{Case, answered, check};
use std::io;
use yarnspire::Limits;

// An image of Empty alone.
const EMPTY: &[u8] = b"\x01\x00\x00\x01\x00\x00";

// One step, one level, and room for a name.
const LEAST: Limits = Limits {
    steps: 1,
    depth: 1,
    room: 1,
};

// The same without room.
const ROOMLESS: Limits = Limits {
    steps: 1,
    depth: 1,
    room: 0,
};

pub fn all(out: &impl Print) -> io::Result<()> {
    start_of_two_bytes(out)?;
    text_of_64(out)?;
    sizes(out)?;
    greatest(out)?;
    inputs(out)?;
    longest_input(out)?;
    lent(out)?;
    million(out)?;
    long_texts(out)?;
    ample_limits(out)?;
    crowded(out)
}

// 129 nodes, 128 Empty and then Any, and a start of two bytes: 01 00 00, 81 01, 80 01, and a byte for each node.
fn start_of_two_bytes(out: &impl Print) -> io::Result<()> {
    let mut image = [0u8; 136];
    image[0] = 1;
    image[3] = 129;
    image[4] = 1;
    image[5] = 128;
    image[6] = 1;
    image[135] = 3;
    check(out, b"129 nodes, start 128, checked", &image)?;
    // any 1: node 128 is the last
    Case {
        name: b"129 nodes, start 128, on A",
        image: &image,
        input: b"A",
        limits: ROOMLESS,
    }
    .recognise(out)?;
    image[5] = 129;
    check(out, b"129 nodes, start 129", &image)
}

// A text of the most bytes: 63 zeros and an A.
fn text_of_64(out: &impl Print) -> io::Result<()> {
    let mut image = [0u8; 71];
    image[0] = 1;
    image[3] = 1;
    image[5] = 4;
    image[6] = 64;
    image[70] = 65;
    let mut input = [0u8; 64];
    input[63] = 65;
    let case = Case {
        name: b"Text of 64 bytes",
        image: &image,
        input: &input,
        limits: ROOMLESS,
    };
    case.recognise(out)?;
    Case {
        name: b"Text of 64 bytes on 63",
        input: &input[..63],
        ..case
    }
    .recognise(out)?;
    check(out, b"2, 63 of 64 raw bytes", &image[..70])?;
    let mut first = input;
    first[0] = 1;
    Case {
        name: b"Text of 64 bytes, the first another",
        input: &first,
        ..case
    }
    .recognise(out)?;
    let mut last = input;
    last[63] = 66;
    Case {
        name: b"Text of 64 bytes, the last another",
        input: &last,
        ..case
    }
    .recognise(out)
}

// Refusal 1, placed at 0 and seen before all else: the zeros have a wrong edition too. An image of Empty with zeros after it is refused 8 up to
// 16,384 bytes.
fn sizes(out: &impl Print) -> io::Result<()> {
    let zeros = [0u8; 16385];
    check(out, b"1, 16385 zeros", &zeros)?;
    check(out, b"16384 zeros", &zeros[..16384])?;
    let case = Case {
        name: b"1 by recognise",
        image: &zeros,
        input: b"A",
        limits: LEAST,
    };
    case.recognise(out)?;
    Case {
        name: b"1 before 10 and 11",
        limits: Limits {
            steps: 0,
            depth: 0,
            room: 4,
        },
        ..case
    }
    .recognise(out)?;
    let mut image = [0u8; 16385];
    image[0] = 1;
    image[3] = 1;
    check(out, b"Empty and zeros, 16384 bytes", &image[..16384])?;
    check(out, b"1, Empty and zeros, 16385 bytes", &image)
}

// As many nodes as there may be, and as many bytes.
fn greatest(out: &impl Print) -> io::Result<()> {
    let mut nodes = [0u8; 518];
    nodes[0] = 1;
    nodes[3] = 128;
    nodes[4] = 4;
    check(out, b"512 nodes", &nodes)?;
    check(out, b"16384 bytes, all good", &longest())
}

// 512 nodes: 244 texts of 64 bytes, one of 5, and 267 empty ones.
fn longest() -> [u8; 16384] {
    let mut image = [0u8; 16384];
    image[0] = 1;
    image[3] = 128;
    image[4] = 4;
    for n in 0..244 {
        image[6 + n * 66] = 4;
        image[7 + n * 66] = 64;
    }
    image[16110] = 4;
    image[16111] = 5;
    image
}

// Refusal 9, placed at 0: the input has over 65,535 bytes.
fn inputs(out: &impl Print) -> io::Result<()> {
    let zeros = [0u8; 65536];
    let case = Case {
        name: b"9, 65536 bytes",
        image: EMPTY,
        input: &zeros,
        limits: LEAST,
    };
    case.recognise(out)?;
    Case {
        name: b"9 before 10",
        limits: Limits { steps: 0, ..LEAST },
        ..case
    }
    .recognise(out)?;
    Case {
        name: b"9 before 11",
        limits: Limits { room: 4, ..LEAST },
        ..case
    }
    .recognise(out)?;
    Case {
        name: b"an image fault before 9",
        image: b"\x02\x00\x00\x01\x00\x00",
        ..case
    }
    .recognise(out)?;
    Case {
        name: b"1 before 9",
        image: &[0u8; 16385],
        ..case
    }
    .recognise(out)?;
    Case {
        name: b"65535 bytes",
        input: &zeros[..65535],
        ..case
    }
    .recognise(out)
}

// The longest input. Star of Any takes two steps for each of its bytes, and two for the failing round: 131,072.
fn longest_input(out: &impl Print) -> io::Result<()> {
    let case = Case {
        name: b"Star of Any on 65535 bytes",
        image: b"\x01\x00\x00\x02\x01\x03\x07\x00",
        input: &[0u8; 65535],
        limits: Limits {
            steps: 131072,
            depth: 2,
            room: 1,
        },
    };
    case.recognise(out)?;
    // the last any's entry is refused, at the end
    Case {
        name: b"Star of Any on 65535 bytes, one step less",
        limits: Limits {
            steps: 131071,
            ..case.limits
        },
        ..case
    }
    .recognise(out)?;
    // the last round is refused, at the end
    Case {
        name: b"Star of Any on 65535 bytes, two steps less",
        limits: Limits {
            steps: 131070,
            ..case.limits
        },
        ..case
    }
    .recognise(out)?;
    // def 1, and then the star, one deeper
    Case {
        name: b"Def of Star of Any on 65535 bytes",
        image: b"\x01\x01\x00\x03\x02\x01\x03\x07\x00\x0A\x00",
        limits: Limits {
            steps: 131073,
            depth: 3,
            room: 1,
        },
        ..case
    }
    .recognise(out)
}

// Refusal 11 with fewer than nine numbers lent.
fn lent(out: &impl Print) -> io::Result<()> {
    lending(out, b"R 0, nothing lent", 0, 0)?;
    lending(out, b"11, R 1, nothing lent", 1, 0)?;
    lending(out, b"11, R 1, two lent", 1, 2)?;
    lending(out, b"R 1, three lent", 1, 3)?;
    lending(out, b"11, R 3, eight lent", 3, 8)
}

// The answer on `A` with one step, one level and this room, and so many of the nine slots lent.
fn lending(out: &impl Print, name: &[u8], room: u32, slots: usize) -> io::Result<()>
    requires { slots ≤ 9 }
{
    let limits = Limits { room, ..LEAST };
    let mut all = [7u32; 9];
    let answer = yarnspire::recognise(EMPTY, b"A", limits, &mut all[..slots]);
    answered(out, name, answer, &all)
}

// Star of fourteen Calls, each of the one before, and Any: a round takes 16 steps, the failing one too, at depth 16. So 62,499 bytes take
// 1,000,000 steps, and with one byte more the next round is refused.
fn million(out: &impl Print) -> io::Result<()> {
    let zeros = [0u8; 62500];
    let limits = Limits {
        room: 1,
        ..Limits::GREATEST
    };
    let case = Case {
        name: b"16 steps a round, 62499 bytes",
        image: b"\x01\x00\x00\x10\x0F\x03\x09\x00\x09\x01\x09\x02\x09\x03\x09\x04\x09\x05\x09\x06\x09\x07\x09\x08\x09\x09\x09\x0A\x09\x0B\x09\x0C\x09\x0D\x07\x0E",
        input: &zeros[..62499],
        limits,
    };
    case.recognise(out)?;
    Case {
        name: b"16 steps a round, 62500 bytes",
        input: &zeros,
        ..case
    }
    .recognise(out)?;
    // the star and fourteen calls; Any is refused
    Case {
        name: b"16 steps a round, D 15",
        input: &zeros,
        limits: Limits {
            depth: 15,
            ..limits
        },
        ..case
    }
    .recognise(out)
}

// Refusals 1 and 9.
fn long_texts(out: &impl Print) -> io::Result<()> {
    let zeros = [0u8; 65536];
    Case {
        name: b"no text, refusal 1",
        image: &zeros[..16385],
        input: b"A",
        limits: LEAST,
    }
    .text(out)?;
    Case {
        name: b"no text, refusal 9",
        image: EMPTY,
        input: &zeros,
        limits: LEAST,
    }
    .text(out)
}

// The Harbour cases with ample limits: 1,000,000 steps, a depth of 256 and room for 256 symbols. The working is above the same cases of the file `cases`.
fn ample_limits(out: &impl Print) -> io::Result<()> {
    let case = Case {
        name: b"H on A=AB, ample limits",
        image: b"\x01\x01\x00\x08\x07\x02\x02\x41\x5A\x07\x00\x05\x00\x01\x0A\x00\x01\x3D\x0C\x00\x05\x04\x05\x05\x03\x06",
        input: b"A=AB",
        limits: Limits::GREATEST,
    };
    case.ample(out)?;
    Case {
        name: b"H with Match for Is on A=AB, ample limits",
        image: b"\x01\x01\x00\x08\x07\x02\x02\x41\x5A\x07\x00\x05\x00\x01\x0A\x00\x01\x3D\x0B\x00\x05\x04\x05\x05\x03\x06",
        ..case
    }
    .ample(out)?;
    let on_a = Case {
        input: b"A",
        ..case
    };
    Case {
        name: b"Def then Local of Exists, ample limits",
        image: b"\x01\x01\x00\x05\x04\x00\x02\x41\x5A\x0A\x00\x0E\x00\x10\x00\x02\x05\x01\x03",
        ..on_a
    }
    .ample(out)?;
    Case {
        name: b"Def then Block of Exists, ample limits",
        image: b"\x01\x01\x00\x05\x04\x00\x02\x41\x5A\x0A\x00\x0E\x00\x0F\x00\x02\x05\x01\x03",
        ..on_a
    }
    .ample(out)?;
    Case {
        name: b"On of Def, then Exists, ample limits",
        image: b"\x01\x01\x01\x05\x04\x00\x02\x41\x5A\x0A\x00\x12\x00\x01\x01\x0E\x00\x05\x02\x03",
        ..on_a
    }
    .ample(out)?;
    Case {
        name: b"If c 1 with no On, ample limits",
        image: b"\x01\x00\x01\x01\x00\x11\x00\x01",
        ..on_a
    }
    .ample(out)?;
    Case {
        name: b"If c 0, ample limits",
        image: b"\x01\x00\x01\x01\x00\x11\x00\x00",
        ..on_a
    }
    .ample(out)
}

// Star of Def of one byte. Each of 256 bytes takes a round, a def and its pattern, and the round after them fails: 771 steps. One byte more has no
// room, and the same 771 steps are charged until then.
fn crowded(out: &impl Print) -> io::Result<()> {
    let zeros = [0u8; 257];
    let case = Case {
        name: b"256 symbols",
        image: b"\x01\x01\x00\x03\x02\x00\x03\x0A\x00\x07\x01",
        input: &zeros[..256],
        limits: Limits::GREATEST,
    };
    case.ample(out)?;
    Case {
        name: b"257 symbols",
        input: &zeros,
        ..case
    }
    .ample(out)
}
