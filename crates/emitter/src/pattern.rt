// What is known of the tables' patterns while a walk goes on: of each table a number, 512 while no def of it has begun, 513 while the first is open, and then the node
// of its pattern. Plain numbers: the array is lent by the caller of `emit`, and its last numbers are the image's (`Emits`).
ghost use Rattle.std.specs.Prelude.{◌≡◌, true, ◌≤◌, ◌<◌, length};
ghost use Rattle.notation.specs.At.{name_at};
ghost use Rattle.notation.specs.Naming.{member};
ghost use Rattle.index.specs.Listed.{Ascending};
ghost use Rattle.writer.specs.Named.{names_of};
ghost use Rattle.writer.specs.Operator.{opener_of};
ghost use Rattle.emitter.specs.Known.{Begins};
ghost use Rattle.emitter.specs.Shown.{brought_of, Tabled, Marks, Ends};

use crate::state::Opened;
use lexer::token::Opener;
use writer::named::Names;

// Notes that a def of the table whose name stands at p begins. Whether it is the first.
fn begin_pattern(names: Names, patterns: &mut [u16], p: usize) -> bool
    requires { Ascending (names_of names.text.now names.tables.now) × (length patterns.old ≡ length names.tables.now) × (member (name_at names.text.now p) (names_of names.text.now names.tables.now) ≡ true) }
    ensures { Begins patterns.old (names_of names.entry.text.now names.entry.tables.now) (name_at names.entry.text.now p) patterns.new result }
{
    let i = names.table(p);
    if patterns[i] != 512 {
        return false;
    }
    patterns[i] = 513;
    true
}

// Notes that an operator begins whose name stands at p. Whether it brings its table's pattern.
pub(crate) fn begin_operator(names: Names, patterns: &mut [u16], opener: Opener, p: usize) -> bool
    requires { Ascending (names_of names.text.now names.tables.now) × (length patterns.old ≡ length names.tables.now) × Tabled (names_of names.text.now names.tables.now) (opener_of opener (name_at names.text.now p)) }
    ensures { Marks (names_of names.entry.text.now names.entry.tables.now) patterns.old (opener_of opener (name_at names.entry.text.now p)) (name_at names.entry.text.now p) patterns.new result }
{
    match opener {
        Opener::Def => begin_pattern(names, patterns, p),
        _ => false,
    }
}

// An operator ends: where it brings its table's pattern, that has this node.
pub(crate) fn end_pattern(names: Names, patterns: &mut [u16], opened: Opened, node: u16)
    requires { Ascending (names_of names.text.now names.tables.now) × (length patterns.old ≡ length names.tables.now) × (opened.brings ≡ true → member (name_at names.text.now opened.name) (names_of names.text.now names.tables.now) ≡ true) × (node < 512) }
    ensures { Ends patterns.old (names_of names.entry.text.now names.entry.tables.now) (brought_of opened.brings (name_at names.entry.text.now opened.name)) node patterns.new }
{
    if opened.brings {
        let i = names.table(opened.name);
        patterns[i] = node;
    }
}
