// What the rules say of a text, before its image is made. The phases are functions of their own, so that their arrays are never there together.
ghost use Rattle.std.specs.Prelude.{◌≡◌, List, [], ◌≤◌, length};
ghost use Rattle.notation.specs.Tree.{Production};
ghost use Rattle.notation.specs.Text.{ReadsAs};
ghost use Rattle.notation.specs.Lexer.{lexemes};
ghost use Rattle.notation.specs.Uses.{head_of};
ghost use Rattle.notation.specs.Places.{name_place, first_name, ninth};
ghost use Rattle.naming.specs.Found.{found};
ghost use Rattle.naming.specs.Gathered.{sort_of, gathered};
ghost use Rattle.writer.specs.Named.{names_of};
ghost use Rattle.compiler.specs.Judges.{cleared, lacks, by_names, by_limits, ruled, Judges};

use crate::refusal::{Refusal, Slip};
use naming::gather::{Sort, gather};
use naming::long::first_long;
use naming::nodes::over_nodes;
use naming::undefined::first_undefined;
use patterns::one::one_pattern;
use walker::walk::read_whole;

// Refused with this slip where something was found.
fn clear(slip: Slip, found: Option<usize>) -> Result<(), Refusal>
    ensures { result ≡ cleared slip found }
{
    match found {
        Some(place) => Err(Refusal { slip, place }),
        None => Ok(()),
    }
}

// 21: the first name that is not defined. `heads` are the productions' names.
fn lacking(text: &[u8], heads: &[u16]) -> Option<usize>
    requires { (length text.now ≤ 65535) × (names_of text.now heads.now ≡ gathered head_of [] (lexemes text.now)) }
    ensures { (ps : List Production) → ReadsAs text.now ps → result ≡ found (name_place text.now) (lacks text.now ps) }
{
    let mut tables = [0u16; 32768];
    let g = gather(text, &mut tables, Sort::Tables);
    let count = g.count;
    first_undefined(text, heads, &tables[..count])
}

// 21 and 22.
fn names(text: &[u8]) -> Result<(), Refusal>
    requires { length text.now ≤ 65535 }
    ensures { (ps : List Production) → ReadsAs text.now ps → result ≡ by_names text.now ps }
{
    let mut heads = [0u16; 32768];
    let g = gather(text, &mut heads, Sort::Productions);
    let count = g.count;
    clear(Slip::Undefined, lacking(text, &heads[..count]))?;
    clear(Slip::Twice, g.again)
}

// The first name of a sort with which there are nine.
fn ninth(text: &[u8], sort: Sort) -> Option<usize>
    requires { length text.now ≤ 65535 }
    ensures { result ≡ found (name_place text.now) (first_name (sort_of sort) ninth [] (lexemes text.now)) }
{
    let mut at = [0u16; 32768];
    gather(text, &mut at, sort).ninth
}

// 24 but for the image.
fn limits(text: &[u8]) -> Result<(), Refusal>
    requires { length text.now ≤ 65535 }
    ensures { (ps : List Production) → ReadsAs text.now ps → result ≡ by_limits text.now ps }
{
    clear(Slip::OverLimit, ninth(text, Sort::Tables))?;
    clear(Slip::OverLimit, ninth(text, Sort::Conditions))?;
    clear(Slip::OverLimit, first_long(text))?;
    clear(Slip::OverLimit, over_nodes(text))
}

// All rules, in their order.
#[tactic(auto, unfolding(crate::specs::Judges::ruled))]
fn rules(text: &[u8]) -> Result<(), Refusal>
    requires { length text.now ≤ 65535 }
    ensures { (ps : List Production) → ReadsAs text.now ps → result ≡ ruled text.now ps }
{
    names(text)?;
    clear(Slip::Unlike, one_pattern(text))?;
    limits(text)
}

// 20, and then the rules. A frame of its own: what `write` needs is not there at the same time.
#[inline(never)]
pub(crate) fn judge(text: &[u8]) -> Result<(), Refusal>
    requires { length text.now ≤ 65535 }
    ensures { Judges text.now result }
{
    read_whole(text)?;
    rules(text)
}
