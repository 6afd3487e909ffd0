// One walk over an image: it is checked, and what the evaluator visits nodes by is put down on the way.
ghost use Rattle.std.specs.Prelude.{◌≡◌, ◌≤◌, length};
ghost use Rattle.format.specs.Image.{bounded, read_image};
ghost use Rattle.image.specs.Word.{word_at};
ghost use Rattle.image.specs.Filled.{Fills, Loads};
ghost use Rattle.image.specs.Meant.{Begins, checked, verdict};

use crate::head::Head;
use crate::number::bounded;
use crate::operands::word_at;
use reader::{Fault, Reader, Refusal};

// Edition, tables, conditions, nodes, start. After a refusal the reader stands where it stood, here and in the two loops below.
fn head_of(reader: &mut Reader) -> Result<Head, Refusal>
    ensures { Begins reader.old reader.new result }
{
    let mut ahead = *reader;
    bounded(&mut ahead, 1..2, Fault::Edition)?;
    let tables = bounded(&mut ahead, 0..9, Fault::Counts)?;
    let conditions = bounded(&mut ahead, 0..9, Fault::Counts)?;
    let nodes = bounded(&mut ahead, 1..513, Fault::Counts)?;
    let start = bounded(&mut ahead, 0..nodes, Fault::Range)?;
    *reader = ahead;
    Ok(Head {
        tables,
        conditions,
        nodes,
        start,
    })
}

// For each table the node of its pattern, put down from 512 on.
fn fill_patterns(reader: &mut Reader, head: Head, code: &mut [u32; 524]) -> Result<(), Refusal>
    ensures { Fills (λ t. bounded reader.old.image.now 7 0 head.nodes) 512 head.tables reader.old reader.new code.old code.new result }
{
    let mut ahead = *reader;
    for t in 0..head.tables {
        code[(512 + t) as usize] = bounded(&mut ahead, 0..head.nodes, Fault::Range)?;
    }
    *reader = ahead;
    Ok(())
}

// Each node's word, put down at the node's own number.
fn fill_nodes(reader: &mut Reader, head: Head, code: &mut [u32; 524]) -> Result<(), Refusal>
    requires { length reader.old.image.now ≤ 16384 }
    ensures { Fills (word_at reader.old.image.now head.tables head.conditions head.nodes) 0 head.nodes reader.old reader.new code.old code.new result }
{
    let mut ahead = *reader;
    for own in 0..head.nodes {
        code[own as usize] = word_at(&mut ahead, head, own)?;
    }
    *reader = ahead;
    Ok(())
}

// Checks an image and puts down its nodes and patterns: a node's word at its number, a table's pattern at 512 plus its number. The last four
// numbers, 520 to 523, keep what they held: the limits of steps, depth and room stand there, and the image's length. After a refusal what was put down
// until then stays.
pub fn load(image: &[u8], code: &mut [u32; 524]) -> Result<Head, Refusal>
    ensures { Loads image.now code.old code.new result }
{
    if 16384 < image.len() {
        return Err(Fault::TooLong.at(0));
    }
    let mut reader = Reader::over(image, 0);
    let head = head_of(&mut reader)?;
    fill_patterns(&mut reader, head, code)?;
    fill_nodes(&mut reader, head, code)?;
    if reader.stands() < image.len() {
        return Err(Fault::Trailing.at(reader.stands()));
    }
    Ok(head)
}

// Checks an image.
pub fn check(image: &[u8]) -> Result<(), Refusal>
    ensures { checked result ≡ verdict (read_image image.now) }
{
    load(image, &mut [0u32; 524]).map(|_| ())
}
