// What the kinds that run one expression inside them make of its outcome.
ghost use Rattle.std.specs.Prelude.{◌≡◌, true, ◌+◌, ◌*◌, ◌≤◌, length, drop};
ghost use Rattle.meaning.specs.Outcome.{same, part, text, begins, among};
ghost use Rattle.meaning.specs.Inside.{Part};
ghost use Rattle.parts.specs.Packed.{opened_of};
ghost use Rattle.parts.specs.Slots.{symbol_at, Parts};
ghost use Rattle.parts.specs.Seen.{listed};
ghost use Rattle.kinds.specs.Turned.{Bounds, given_of, negated_of, restored_of, compared_of, defined_of, defined_in, Lent, ClosedOf};

use parts::compare::{is_listed, is_symbol};
use parts::outcome::{Outcome, Packed, Stop};
use parts::slots::{Symbol, close, store, symbol_at};

// A test that nothing stands inside of: it passes to a place, or it fails.
pub fn given(ok: bool, at: u32, held: u32, steps: u32, depth: u32) -> Packed
    requires { (ok ≡ true → at ≤ 65535) × (held ≤ 256) × (steps ≤ 1000000) × (depth ≤ 256) }
    ensures { opened_of result ≡ given_of ok at held steps depth }
{
    if ok {
        return Packed::passed(at, held, steps, depth);
    }
    Packed::failed(steps, depth)
}

// Match: the bytes of the symbol of a number are consumed once more.
pub fn again(
    input: &[u8],
    slots: &[u32],
    number: u32,
    at: u32,
    held: u32,
    steps: u32,
    depth: u32,
) -> Packed
    requires { (length input.now ≤ 65535) × (at ≤ length input.now) × (number ≤ 255) × (number * 3 + 3 ≤ length slots.now) × Part (length input.now) (symbol_at slots.now number) × (held ≤ 256) × (steps ≤ 1000000) × (depth ≤ 256) }
    ensures { opened_of result ≡ given_of (begins (text input.now (symbol_at slots.now number)) (drop at input.now)) (at + length (text input.now (symbol_at slots.now number))) held steps depth }
{
    let symbol = symbol_at(slots, number);
    let text = &input[symbol.start as usize..symbol.end as usize];
    let ok = input[at as usize..].starts_with(text);
    given(ok, at + (symbol.end - symbol.start), held, steps, depth)
}

// Not: passed becomes failed, failed passes where it began.
pub fn negated(at: u32, held: u32, r: Packed) -> Packed
    requires { (at ≤ 65535) × (held ≤ 256) × Bounds 65535 0 0 256 (opened_of r) }
    ensures { opened_of result ≡ negated_of at held (opened_of r) }
{
    match r.opened() {
        Outcome::Passed { steps, depth, .. } => Packed::failed(steps, depth),
        Outcome::Failed { steps, depth } => Packed::passed(at, held, steps, depth),
        Outcome::Refused { .. } => r,
    }
}

// What did not pass is handed on as it is, here and below, by a let-else in each: a closure for what passed would only name its parts once more.

// On: what was stored inside is dropped.
pub fn restored(held: u32, r: Packed) -> Packed
    requires { (held ≤ 256) × Bounds 65535 0 0 256 (opened_of r) }
    ensures { opened_of result ≡ restored_of held (opened_of r) }
{
    let Outcome::Passed {
        at: next,
        steps,
        depth,
        ..
    } = r.opened()
    else {
        return r;
    };
    Packed::passed(next, held, steps, depth)
}

// Is: what was stored inside is dropped, and the bytes that were consumed must be those of the symbol of a number.
pub fn is_latest(input: &[u8], slots: &[u32], number: u32, at: u32, held: u32, r: Packed) -> Packed
    requires { (length input.now ≤ 65535) × (number ≤ 255) × (number * 3 + 3 ≤ length slots.now) × Part (length input.now) (symbol_at slots.now number) × (held ≤ 256) × Bounds (length input.now) at 0 256 (opened_of r) }
    ensures { opened_of result ≡ compared_of (λ end. same (part input.now at end) (text input.now (symbol_at slots.now number))) held (opened_of r) }
{
    let Outcome::Passed {
        at: next,
        steps,
        depth,
        ..
    } = r.opened()
    else {
        return r;
    };
    let ok = is_symbol(input, slots, number, at as usize, next as usize);
    given(ok, next, held, steps, depth)
}

// Isa: the same with some symbol of the table's list.
pub fn is_some(
    input: &[u8],
    slots: &[u32],
    table: u32,
    low: u32,
    at: u32,
    held: u32,
    r: Packed,
) -> Packed
    requires { (length input.now ≤ 65535) × (held ≤ 256) × (held * 3 ≤ length slots.now) × Parts (length input.now) held slots.now × Bounds (length input.now) at 0 256 (opened_of r) }
    ensures { opened_of result ≡ compared_of (λ end. among input.now (part input.now at end) (listed table low slots.now held)) held (opened_of r) }
{
    let Outcome::Passed {
        at: next,
        steps,
        depth,
        ..
    } = r.opened()
    else {
        return r;
    };
    let ok = is_listed(input, slots, table, low, held, at as usize, next as usize);
    given(ok, next, held, steps, depth)
}

// Def: what was stored inside is dropped, and the name is stored if there is room.
pub fn defined(room: u32, slots: &mut [u32], table: u32, at: u32, held: u32, r: Packed) -> Packed
    requires { (room ≤ 256) × (room * 3 ≤ length slots.old) × (at ≤ 65535) × Bounds 65535 0 0 256 (opened_of r) }
    ensures { (opened_of result ≡ defined_of room table at held (opened_of r)) × (slots.new ≡ defined_in room table at held (opened_of r) slots.old) }
{
    let Outcome::Passed {
        at: next,
        steps,
        depth,
        ..
    } = r.opened()
    else {
        return r;
    };
    if held < room {
        let name = Symbol {
            table,
            start: at,
            end: next,
        };
        store(slots, held, name);
        return Packed::passed(next, held + 1, steps, depth);
    }
    Packed::refused(Stop::Room, at, steps, depth)
}

// Block and Local: of what was stored inside, the table's own is dropped.
pub fn closed(slots: &mut [u32], table: u32, held: u32, r: Packed) -> Packed
    requires { Bounds 65535 0 held 256 (opened_of r) × Lent slots.old (opened_of r) }
    ensures { ClosedOf table held (opened_of r) slots.old slots.new (opened_of result) }
{
    let Outcome::Passed {
        at: next,
        held: more,
        steps,
        depth,
    } = r.opened()
    else {
        return r;
    };
    let stay = close(slots, table, held, more);
    Packed::passed(next, stay, steps, depth)
}
