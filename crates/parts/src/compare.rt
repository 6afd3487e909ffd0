// Symbols against the input.
ghost use Rattle.std.specs.Prelude.{◌≡◌, ◌+◌, ◌*◌, ◌≤◌, length};
ghost use Rattle.meaning.specs.Outcome.{same as Outcome·same, part, text, among};
ghost use Rattle.parts.specs.Slots.{symbol_at, Parts};
ghost use Rattle.parts.specs.Seen.{listed};
ghost use Rattle.meaning.specs.Inside.{Part};

use crate::slots::symbol_at;

// Whether the symbol of a number is, byte for byte, what stands in the input from `at` to `to`.
pub fn is_symbol(input: &[u8], slots: &[u32], number: u32, at: usize, to: usize) -> bool
    requires { (number ≤ 255) × (number * 3 + 3 ≤ length slots.now) × Part (length input.now) (symbol_at slots.now number) × (at ≤ to) × (to ≤ length input.now) }
    ensures { result ≡ Outcome·same (part input.now at to) (text input.now (symbol_at slots.now number)) }
{
    let symbol = symbol_at(slots, number);
    input[at..to] == input[symbol.start as usize..symbol.end as usize]
}

// Whether some symbol of a table's list, of the first `held` symbols those from `low` on, is what stands in the input from `at` to `to`.
pub fn is_listed(
    input: &[u8],
    slots: &[u32],
    table: u32,
    low: u32,
    held: u32,
    at: usize,
    to: usize,
) -> bool
    requires { (held ≤ 256) × (held * 3 ≤ length slots.now) × Parts (length input.now) held slots.now × (at ≤ to) × (to ≤ length input.now) }
    ensures { result ≡ among input.now (part input.now at to) (listed table low slots.now held) }
{
    for number in (low..held).rev() {
        if symbol_at(slots, number).table == table && is_symbol(input, slots, number, at, to) {
            return true;
        }
    }
    false
}
