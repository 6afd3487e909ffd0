// A decoded node, and the word of 32 bits that keeps it.
ghost use Rattle.std.specs.Prelude.{◌≡◌, ◌<◌};
ghost use Rattle.image.specs.Word.{packed};
ghost use Rattle.image.specs.Node.{node_of, span_of};

// Exactly one of nineteen kinds with its own operands: bytes, numbers of nodes, a table, a condition with its truth.
// A Text has the place of its bytes in the image, and how many they are.
#[derive(Clone, Copy)]
pub enum Node {
    Empty,
    Byte(u8),
    Range(u8, u8),
    Any,
    Text(u32, u32),
    Sequence(u32, u32),
    Choice(u32, u32),
    Star(u32),
    Not(u32),
    Call(u32),
    Def(u32),
    Match(u32),
    Is(u32),
    Isa(u32),
    Exists(u32),
    Block(u32, u32),
    Local(u32, u32),
    If(u32, bool),
    On(u32, bool, u32),
}

// The node that a word keeps. No `From`: a number is a word only where the walk put it down, and the tags are 01's.
#[tactic(auto, unfolding(crate::specs::Node::node_of))]
pub fn node_of(word: u32) -> Node
    ensures { result ≡ node_of word }
{
    let tag = word % 32;
    let a = word / 32 % 32768;
    let b = word / 1048576;
    match tag {
        0 => Node::Empty,
        1 => Node::Byte((a % 256) as u8),
        2 => Node::Range((a % 256) as u8, (b % 256) as u8),
        3 => Node::Any,
        4 => Node::Text(a, b),
        5 => Node::Sequence(a, b),
        6 => Node::Choice(a, b),
        7 => Node::Star(a),
        8 => Node::Not(a),
        9 => Node::Call(a),
        10 => Node::Def(a),
        11 => Node::Match(a),
        12 => Node::Is(a),
        13 => Node::Isa(a),
        14 => Node::Exists(a),
        15 => Node::Block(a, b),
        16 => Node::Local(a, b),
        17 => Node::If(a / 2, a % 2 == 1),
        _ => Node::On(a / 2, a % 2 == 1, b),
    }
}

// The least and the greatest byte that is taken where a single byte is asked for.
#[derive(Clone, Copy)]
pub struct Span {
    pub lo: u8,
    pub hi: u8,
}

// The single byte that a node asks for.
pub fn span_of(node: Node) -> Option<Span>
    ensures { result ≡ span_of node }
{
    match node {
        Node::Byte(b) => Some(Span { lo: b, hi: b }),
        Node::Range(lo, hi) => Some(Span { lo, hi }),
        Node::Any => Some(Span { lo: 0, hi: 255 }),
        _ => None,
    }
}

// A tag and two operands in one word. The tag is 01's number.
pub(crate) fn word(tag: u32, a: u32, b: u32) -> u32
    requires { (tag < 32) × (a < 32768) × (b < 4096) }
    ensures { result ≡ packed tag a b }
{
    tag + a * 32 + b * 1048576
}
