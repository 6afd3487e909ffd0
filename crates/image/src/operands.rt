// Reading a node: its tag, and then its operands, one function for each shape that operands have. Each gives the node's word.
//
// After a refusal the reader stands where it stood: a function that reads more than once goes ahead with a copy of it.
ghost use Rattle.std.specs.Prelude.{◌+◌, ◌*◌, ◌<◌, ◌≤◌, length, IfOk};
ghost use Rattle.image.specs.Word.{word_at};
ghost use Rattle.reader.specs.Meant.{Reads};
ghost use Rattle.image.specs.Shapes.{one_at, two_at, range_at, text_at, switch_at, if_at, on_at, operands_at};

use crate::head::Head;
use crate::node::word;
use crate::number::bounded;
use reader::{Fault, Reader, Refusal};

// A tag is the number that the image has for a kind, and goes into the word as it is.
// One operand, below `stop`.
fn one_operand(reader: &mut Reader, tag: u32, stop: u32) -> Result<u32, Refusal>
    requires { (tag < 32) × (stop ≤ 512) }
    ensures { Reads (one_at reader.old.image.now tag stop) reader.old reader.new result }
{
    let a = bounded(reader, 0..stop, Fault::Range)?;
    Ok(word(tag, a, 0))
}

// Two operands, the first below `first` and the second below `second`.
fn two_operands(reader: &mut Reader, tag: u32, first: u32, second: u32) -> Result<u32, Refusal>
    requires { (tag < 32) × (first ≤ 512) × (second ≤ 512) }
    ensures { Reads (two_at reader.old.image.now tag first second) reader.old reader.new result }
{
    let mut ahead = *reader;
    let a = bounded(&mut ahead, 0..first, Fault::Range)?;
    let b = bounded(&mut ahead, 0..second, Fault::Range)?;
    *reader = ahead;
    Ok(word(tag, a, b))
}

// The two ends of a range: lo is a byte, and hi is a byte that is not below lo, so the one bound hangs on the other operand, and not so in `two_operands`.
fn range_operands(reader: &mut Reader) -> Result<u32, Refusal>
    ensures { Reads (range_at reader.old.image.now) reader.old reader.new result }
{
    let mut ahead = *reader;
    let lo = bounded(&mut ahead, 0..256, Fault::Range)?;
    let hi = bounded(&mut ahead, lo..256, Fault::Range)?;
    *reader = ahead;
    Ok(word(2, lo, hi))
}

// The count of a text, and its raw bytes, which stay where they are.
fn text_operands(reader: &mut Reader) -> Result<u32, Refusal>
    requires { length reader.old.image.now ≤ 16384 }
    ensures { Reads (text_at reader.old.image.now) reader.old reader.new result }
{
    let place = reader.stands();
    let count = bounded(reader, 1..65, Fault::Range)?;
    let end = reader.image.len();
    let start = reader.stands();
    if end.saturating_sub(start) < count as usize {
        reader.at = place;
        return Err(Fault::Cut.at(end));
    }
    reader.at = start + count as usize;
    Ok(word(4, start as u32, count))
}

// A condition and its truth, as one number.
fn switch(reader: &mut Reader, conditions: u32) -> Result<u32, Refusal>
    requires { conditions ≤ 512 }
    ensures reads { Reads (switch_at reader.old.image.now conditions) reader.old reader.new result }
    ensures within { IfOk result (λ n. n < conditions * 2) }
{
    let mut ahead = *reader;
    let condition = bounded(&mut ahead, 0..conditions, Fault::Range)?;
    let truth = bounded(&mut ahead, 0..2, Fault::Range)?;
    *reader = ahead;
    Ok(condition * 2 + truth)
}

// A condition and its truth.
fn if_operands(reader: &mut Reader, conditions: u32) -> Result<u32, Refusal>
    requires { conditions ≤ 512 }
    ensures { Reads (if_at reader.old.image.now conditions) reader.old reader.new result }
{
    let switched = switch(reader, conditions)?;
    Ok(word(17, switched, 0))
}

// A condition, its truth, and a node below `own`.
fn on_operands(reader: &mut Reader, conditions: u32, own: u32) -> Result<u32, Refusal>
    requires { (conditions ≤ 512) × (own ≤ 512) }
    ensures { Reads (on_at reader.old.image.now conditions own) reader.old reader.new result }
{
    let mut ahead = *reader;
    let switched = switch(&mut ahead, conditions)?;
    let a = bounded(&mut ahead, 0..own, Fault::Range)?;
    *reader = ahead;
    Ok(word(18, switched, a))
}

// The operands behind a tag, as the node's word.
fn operands_at(reader: &mut Reader, tag: u32, head: Head, own: u32) -> Result<u32, Refusal>
    requires { (tag < 19) × (own ≤ 512) × (length reader.old.image.now ≤ 16384) }
    ensures { Reads (operands_at reader.old.image.now head.tables head.conditions head.nodes own tag) reader.old reader.new result }
{
    match tag {
        0 => Ok(word(tag, 0, 0)),
        1 => one_operand(reader, tag, 256),
        2 => range_operands(reader),
        3 => Ok(word(tag, 0, 0)),
        4 => text_operands(reader),
        5..=6 => two_operands(reader, tag, own, own),
        7..=8 => one_operand(reader, tag, own),
        9 => one_operand(reader, tag, head.nodes),
        10..=14 => one_operand(reader, tag, head.tables),
        15..=16 => two_operands(reader, tag, head.tables, own),
        17 => if_operands(reader, head.conditions),
        _ => on_operands(reader, head.conditions, own),
    }
}

// The next node as a word, by its own number and the head of its image.
pub fn word_at(reader: &mut Reader, head: Head, own: u32) -> Result<u32, Refusal>
    requires { (own ≤ 512) × (length reader.old.image.now ≤ 16384) }
    ensures { Reads (word_at reader.old.image.now head.tables head.conditions head.nodes own) reader.old reader.new result }
{
    let mut ahead = *reader;
    let tag = bounded(&mut ahead, 0..19, Fault::Tag)?;
    let kept = operands_at(&mut ahead, tag, head, own)?;
    *reader = ahead;
    Ok(kept)
}
