// The slot buffer: three numbers a held symbol (table, start, end), oldest first. A caller that keeps its own number of held symbols keeps
// those symbols: neither `store` nor `close` writes below it. Plain numbers, and no array of symbols, since the slots that C lends are such.
ghost use Rattle.std.specs.Prelude.{◌≡◌, ◌+◌, ◌*◌, ◌≤◌, length};
ghost use Rattle.parts.specs.Slots.{symbol_at, meant, putting, latest_of, Closes};

// A held symbol: its table, and where in the input it starts and ends.
#[derive(Clone, Copy, PartialEq, Eq, Debug)]
pub struct Symbol {
    pub table: u32,
    pub start: u32,
    pub end: u32,
}

// The symbol of a number.
pub fn symbol_at(slots: &[u32], number: u32) -> Symbol
    requires { (number ≤ 255) × (number * 3 + 3 ≤ length slots.now) }
    ensures { meant result ≡ symbol_at slots.now number }
{
    let i = (number * 3) as usize;
    Symbol {
        table: slots[i],
        start: slots[i + 1],
        end: slots[i + 2],
    }
}

// Puts a symbol down behind the first `held`.
pub fn store(slots: &mut [u32], held: u32, symbol: Symbol)
    requires { (held ≤ 255) × (held * 3 + 3 ≤ length slots.old) }
    ensures { slots.new ≡ putting slots.old held symbol.table symbol.start symbol.end }
{
    let i = (held * 3) as usize;
    slots[i] = symbol.table;
    slots[i + 1] = symbol.start;
    slots[i + 2] = symbol.end;
}

// The number of a table's latest symbol among those from `low` up to `held`, if there is one.
pub fn latest(slots: &[u32], table: u32, low: u32, held: u32) -> Option<u32>
    requires { (held ≤ 256) × (held * 3 ≤ length slots.now) }
    ensures { result ≡ latest_of table low held slots.now }
{
    for number in (low..held).rev() {
        if symbol_at(slots, number).table == table {
            return Some(number);
        }
    }
    None
}

// Closes a scope of a table: of the symbols above the mark those of other tables slide down to it, in their order.
pub fn close(slots: &mut [u32], table: u32, mark: u32, held: u32) -> u32
    requires { (mark ≤ held) × (held ≤ 256) × (held * 3 ≤ length slots.old) }
    ensures { Closes table mark held slots.old slots.new result }
{
    let mut to = mark;
    for from in mark..held {
        let symbol = symbol_at(slots, from);
        if symbol.table != table {
            store(slots, to, symbol);
            to += 1;
        }
    }
    to
}
