// One symbol of a walk: what it adds, and what is complete and open behind it.
ghost use Rattle.std.specs.Prelude.{◌≡◌, true, [], ◌∷◌, ℕ, ◌-◌, ◌≤◌, ◌<◌, length, get_or};
ghost use Rattle.notation.specs.Tree.{Name};
ghost use Rattle.notation.specs.At.{name_at};
ghost use Rattle.notation.specs.Naming.{all, member};
ghost use Rattle.notation.specs.Limits.{short};
ghost use Rattle.notation.specs.Compile.{leaf_count};
ghost use Rattle.index.specs.Listed.{Ascending};
ghost use Rattle.lexer.specs.Meant.{leaf_at};
ghost use Rattle.walker.specs.Walks.{symbol_at, Taken};
ghost use Rattle.writer.specs.Put.{Room};
ghost use Rattle.writer.specs.Named.{names_of, leaf_by, operator_by, Numbered};
ghost use Rattle.writer.specs.Leaf.{LeafTaken};
ghost use Rattle.writer.specs.Operator.{unary_nodes, binary_of, opener_of};
ghost use Rattle.emitter.specs.Stage.{Stage};
ghost use Rattle.emitter.specs.Shown.{opened_at, opener_in, brought_in, Tabled, Ends, Enters, Grows, Starts, Shown, Brought, Apt, after_by};

use crate::pattern::{begin_operator, end_pattern};
use crate::state::{Opened, Stacks, State, end_production, settle};
use lexer::token::{Leaf, Opener, Token};
use walker::walk::Symbol;
use writer::leaf::add_leaf;
use writer::named::Names;
use writer::operator::{Binary, Unary, add_binary, add_operator, add_unary};

// A leaf stands here.
fn stand(
    names: Names,
    out: &mut [u8],
    done: &mut [u16; 512],
    s: State,
    leaf: Leaf,
    t: Token,
) -> State
    requires ascending { Ascending (names_of names.text.now names.heads.now) × Numbered names.text.now names.tables.now names.switches.now × LeafTaken names.text.now t leaf }
    requires room { (all (λ b. b) (short (leaf_at names.text.now t leaf)) ≡ true) × Room out.old s.made (leaf_count (leaf_at names.text.now t leaf)) × (length done.old ≡ 512) × (s.complete ≤ s.made.nodes) }
    ensures { Grows out.old done.old s s.complete s.openers (leaf_by names.entry.text.now names.entry.heads.now names.entry.roots.now names.entry.tables.now names.entry.switches.now s.made.nodes (leaf_at names.entry.text.now t leaf)) out.new done.new result }
{
    let m = add_leaf(names, out, s.made, leaf, t);
    settle(done, m, s.complete, s.openers, s.ended)
}

// A prefix or a suffix, behind its operand.
fn follow(out: &mut [u8], done: &mut [u16; 512], s: State, unary: Unary) -> State
    requires { (length done.old ≡ 512) × (1 ≤ s.complete) × (s.complete ≤ s.made.nodes) × Room out.old s.made (length (unary_nodes unary (get_or done.old (s.complete - 1) 0) s.made.nodes)) }
    ensures { Grows out.old done.old s (s.complete - 1) s.openers (unary_nodes unary (get_or done.old (s.complete - 1) 0) s.made.nodes) out.new done.new result }
{
    let depth = s.complete - 1;
    let m = add_unary(out, s.made, unary, done[depth]);
    settle(done, m, depth, s.openers, s.ended)
}

// What joins two expressions, behind both.
fn join(out: &mut [u8], done: &mut [u16; 512], s: State, binary: Binary) -> State
    requires { (length done.old ≡ 512) × (2 ≤ s.complete) × (s.complete ≤ s.made.nodes) × Room out.old s.made 1 }
    ensures { Grows out.old done.old s (s.complete - 2) s.openers (binary_of binary (get_or done.old (s.complete - 2) 0) (get_or done.old (s.complete - 1) 0) ∷ []) out.new done.new result }
{
    let last = s.complete - 1;
    let depth = s.complete - 2;
    let m = add_binary(out, s.made, binary, done[depth], done[last]);
    settle(done, m, depth, s.openers, s.ended)
}

// An operator in angle brackets begins, whose name stands at p.
fn enter(
    names: Names,
    patterns: &mut [u16],
    opened: &mut [Opened; 512],
    s: State,
    opener: Opener,
    p: usize,
) -> State
    requires ascending { Ascending (names_of names.text.now names.tables.now) × (length patterns.old ≡ length names.tables.now) × Tabled (names_of names.text.now names.tables.now) (opener_of opener (name_at names.text.now p)) }
    requires bounds { (s.openers < 512) × (length opened.old ≡ 512) }
    ensures { Enters names.entry.text.now (names_of names.entry.text.now names.entry.tables.now) patterns.old opened.old s (opener_of opener (name_at names.entry.text.now p)) patterns.new opened.new result }
{
    let brings = begin_operator(names, patterns, opener, p);
    opened[s.openers] = Opened {
        opener,
        name: p,
        brings,
    };
    State {
        openers: s.openers + 1,
        ..s
    }
}

// The latest operator in angle brackets ends, behind its operand.
fn leave(
    names: Names,
    out: &mut [u8],
    patterns: &mut [u16],
    done: &mut [u16; 512],
    opened: &[Opened; 512],
    s: State,
) -> State
    requires numbered { Numbered names.text.now names.tables.now names.switches.now × (length patterns.old ≡ length names.tables.now) × ((opened_at opened.now (s.openers - 1)).brings ≡ true → member (name_at names.text.now (opened_at opened.now (s.openers - 1)).name) (names_of names.text.now names.tables.now) ≡ true) }
    requires room { Room out.old s.made 1 × (length done.old ≡ 512) × (length opened.now ≡ 512) × (1 ≤ s.complete) × (s.complete ≤ s.made.nodes) × (1 ≤ s.openers) × (s.openers ≤ 512) }
    ensures grows { (production : Name → ℕ) → Grows out.old done.old s (s.complete - 1) (s.openers - 1) (operator_by names.entry.text.now names.entry.tables.now names.entry.switches.now production (opener_in names.entry.text.now opened.now (s.openers - 1)) (get_or done.old (s.complete - 1) 0) ∷ []) out.new done.new result }
    ensures ends { Ends patterns.old (names_of names.entry.text.now names.entry.tables.now) (brought_in names.entry.text.now opened.now (s.openers - 1)) (s.made.nodes - 1) patterns.new }
{
    let depth = s.complete - 1;
    let openers = s.openers - 1;
    let last = opened[openers];
    end_pattern(names, patterns, last, (s.made.nodes - 1) as u16);
    let m = add_operator(names, out, s.made, last.opener, last.name, done[depth]);
    settle(done, m, depth, openers, s.ended)
}

// A production begins, and the one before it ends.
fn begin(ends: &mut [u16], s: State) -> State
    requires { (s.ended < length ends.old) × (s.made.length ≤ 65535) }
    ensures { Starts ends.old s ends.new result }
{
    let m = s.made;
    let ended = end_production(ends, m, s.ended);
    State {
        made: m,
        complete: 0,
        openers: 0,
        ended,
    }
}

// Takes a symbol.
pub(crate) fn take_symbol(
    names: Names,
    out: &mut [u8],
    patterns: &mut [u16],
    ends: &mut [u16],
    stacks: &mut Stacks,
    s: State,
    symbol: Symbol,
    t: Token,
) -> State
    requires ascending { Ascending (names_of names.text.now names.heads.now) × Numbered names.text.now names.tables.now names.switches.now × Taken names.text.now t symbol }
    requires shown { (st : Stage) × Shown names.text.now (names_of names.text.now names.tables.now) out.old patterns.old ends.old stacks.old.done stacks.old.opened s st × Brought (names_of names.text.now names.tables.now) st.brought × Apt (names_of names.text.now names.tables.now) (symbol_at names.text.now t symbol) s }
    ensures { (st : Stage) → Shown names.entry.text.now (names_of names.entry.text.now names.entry.tables.now) out.old patterns.old ends.old stacks.old.done stacks.old.opened s st → Shown names.entry.text.now (names_of names.entry.text.now names.entry.tables.now) out.new patterns.new ends.new stacks.new.done stacks.new.opened result (after_by names.entry.text.now names.entry.heads.now names.entry.roots.now names.entry.tables.now names.entry.switches.now (symbol_at names.entry.text.now t symbol) st) }
{
    match symbol {
        Symbol::Head => begin(ends, s),
        Symbol::Leaf(leaf) => stand(names, out, &mut stacks.done, s, leaf, t),
        Symbol::Opens(opener) => enter(names, patterns, &mut stacks.opened, s, opener, t.name),
        Symbol::Closes => leave(names, out, patterns, &mut stacks.done, &stacks.opened, s),
        Symbol::And => follow(out, &mut stacks.done, s, Unary::And),
        Symbol::Not => follow(out, &mut stacks.done, s, Unary::Not),
        Symbol::After(suffix) => follow(out, &mut stacks.done, s, Unary::After(suffix)),
        Symbol::Sequence => join(out, &mut stacks.done, s, Binary::Sequence),
        Symbol::Choice => join(out, &mut stacks.done, s, Binary::Choice),
    }
}
