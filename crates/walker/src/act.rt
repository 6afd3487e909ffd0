// One act of the walk: what is open is closed, or the front token is taken.
ghost use Rattle.std.specs.Prelude.{◌≡◌, true, false, List, ◌+◌, ◌<◌, ◌≤◌, length};
ghost use Rattle.walker.specs.Acts.{Follows, weight, latest, reach_of, closed_by, closer_of, opened_by, IsBracket, Acts};

use lexer::token::Kind;

// Where the walk stands: before the first production, where an item must begin, or behind a primary.
#[derive(Clone, Copy, PartialEq, Eq)]
pub enum Mode {
    Start,
    Want,
    Behind,
}

// What is open: a bracket, an operator in angle brackets, alternatives or a row that wait for what follows, a prefix that waits for its operand.
#[derive(Clone, Copy, PartialEq, Eq)]
pub enum Open {
    Bracket,
    Angle,
    Choice,
    Sequence,
    And,
    Not,
}

// How far what comes next behind a primary closes what is open: another item prefixes, another alternative rows too, and an end all but brackets.
#[derive(Clone, Copy, PartialEq, Eq)]
enum Reach {
    Item,
    Alternative,
    End,
}

// What is done: the latest that is open is closed; the front token is taken, which leaves this mode and this many open; or the walk is over, at its end or broken.
#[derive(Clone, Copy)]
pub(crate) enum Act {
    Pop(Open),
    Shift(Mode, usize),
    Ended,
    Broken,
}

// The latest that is open; a bracket where nothing is, since that too is closed by no token of another kind.
fn last_open(stack: &[Open; 65536], height: usize) -> Open
    requires { height ≤ 65536 }
    ensures { result ≡ latest height stack.now }
{
    if height == 0 {
        return Open::Bracket;
    }
    stack[height - 1]
}

// Whether a token of this kind is a `)`, and the latest that is open a `(`.
pub(crate) fn shuts(stack: &[Open; 65536], height: usize, kind: Kind) -> bool
    requires { height ≤ 65536 }
    ensures { result ≡ true → (kind ≡ Kind.Right) × (1 ≤ height) × (latest height stack.now ≡ Open.Bracket) }
{
    kind == Kind::Right && 0 < height && last_open(stack, height) == Open::Bracket
}

// How far a token of this kind closes.
fn reach_of(kind: Kind) -> Reach
    ensures { result ≡ reach_of kind }
{
    match kind {
        Kind::End | Kind::Head | Kind::Closes | Kind::Right => Reach::End,
        Kind::Slash => Reach::Alternative,
        _ => Reach::Item,
    }
}

// Whether that closes what is open.
fn closes(reach: Reach, last: Open) -> bool
    ensures { result ≡ closed_by reach last }
{
    match last {
        Open::Bracket | Open::Angle => false,
        Open::Choice => reach == Reach::End,
        Open::Sequence => reach != Reach::Item,
        Open::And | Open::Not => true,
    }
}

// The kind of token that closes a bracket: `)`, or `>`.
fn closer(last: Open) -> Kind
    ensures { result ≡ closer_of last }
{
    match last {
        Open::Bracket => Kind::Right,
        _ => Kind::Closes,
    }
}

// What a token of this kind opens where an item must begin, if it does.
fn entry(kind: Kind) -> Option<Open>
    ensures { result ≡ opened_by kind }
{
    match kind {
        Kind::Opens(_) => Some(Open::Angle),
        Kind::Left => Some(Open::Bracket),
        Kind::And => Some(Open::And),
        Kind::Not => Some(Open::Not),
        _ => None,
    }
}

// Where an item must begin.
fn wants(stack: &mut [Open; 65536], height: usize, kind: Kind) -> Act
    requires { (length stack.old ≡ 65536) × (height < 65536) }
    ensures { Acts Mode.Want height stack.old stack.new kind result }
{
    if let Kind::Leaf(_) = kind {
        return Act::Shift(Mode::Behind, height);
    }
    match entry(kind) {
        Some(begun) => {
            stack[height] = begun;
            Act::Shift(Mode::Want, height + 1)
        }
        None => Act::Broken,
    }
}

// Behind a primary, where an end comes and nothing is open.
fn bottom(kind: Kind) -> Act
    requires { reach_of kind ≡ Reach.End }
    ensures { (s : List Open) → Acts Mode.Behind 0 s s kind result }
{
    match kind {
        Kind::End => Act::Ended,
        Kind::Head => Act::Shift(Mode::Want, 0),
        _ => Act::Broken,
    }
}

// Behind a primary, where an end comes and closes no more than a bracket.
fn ends(height: usize, last: Open, kind: Kind) -> Act
    requires { IsBracket last × (reach_of kind ≡ Reach.End) }
    ensures { (s : List Open) → latest height s ≡ last → Acts Mode.Behind height s s kind result }
{
    if height == 0 {
        return bottom(kind);
    }
    if kind == closer(last) {
        return Act::Shift(Mode::Behind, height - 1);
    }
    Act::Broken
}

// Behind a primary, where no suffix comes.
fn follows(stack: &mut [Open; 65536], height: usize, kind: Kind) -> Act
    requires { (length stack.old ≡ 65536) × (height + 1 < 65536) × Follows kind }
    ensures { Acts Mode.Behind height stack.old stack.new kind result }
{
    let last = last_open(stack, height);
    let reach = reach_of(kind);
    if closes(reach, last) {
        return Act::Pop(last);
    }
    match reach {
        Reach::End => ends(height, last, kind),
        Reach::Alternative => {
            stack[height] = Open::Choice;
            Act::Shift(Mode::Want, height + 1)
        }
        Reach::Item => {
            stack[height] = Open::Sequence;
            wants(stack, height + 1, kind)
        }
    }
}

// One act of the walk.
pub(crate) fn one_act(stack: &mut [Open; 65536], height: usize, mode: Mode, kind: Kind) -> Act
    requires { (length stack.old ≡ 65536) × (height + weight mode ≤ 65536) }
    ensures { Acts mode height stack.old stack.new kind result }
{
    match mode {
        Mode::Start => {
            if kind == Kind::Head {
                return Act::Shift(Mode::Want, 0);
            }
            Act::Broken
        }
        Mode::Want => wants(stack, height, kind),
        Mode::Behind => match kind {
            Kind::After(_) => Act::Shift(Mode::Behind, height),
            Kind::Bad => Act::Broken,
            _ => follows(stack, height, kind),
        },
    }
}
