// A text's gaps: blanks and comments.
ghost use Rattle.std.specs.Prelude.{◌≡◌, ◌==◌, ◌<◌, length};
ghost use Rattle.std.specs.List.{position};
ghost use Rattle.lexer.specs.declared.gap.Inside.TheVariants.{Outside};
ghost use Rattle.lexer.specs.Gaps.{Stepped, Further, Skips};

// A comment that nothing closes, by the place of its `/*`.
#[derive(Clone, Copy, PartialEq, Eq, Debug)]
pub struct OpenComment {
    pub at: usize,
}

// Where in a gap one stands: outside a comment, in a line, before the `*` that opens a block, in a block, behind a `*` in a block. What is in a block knows
// the place of its `/*`.
#[derive(Clone, Copy, PartialEq, Eq, Debug)]
pub enum Inside {
    Outside,
    InLine,
    Opening(usize),
    InBlock(usize),
    Starred(usize),
}

// Where the byte behind a place outside a comment stands; none where the gap ends here.
#[tactic(auto, using(crate::proofs::PlaceLaws::at_place, crate::proofs::PlaceLaws::over), unfolding(notation::specs::Lexer::skip, notation::specs::Lexer::front, notation::specs::Lexer::second))]
pub(crate) fn front(text: &[u8], i: usize) -> Option<Inside>
    requires { i < length text.now }
    ensures { Stepped text.now i Outside result }
{
    match text[i] {
        b' ' | b'\t' | b'\n' | b'\r' => Some(Inside::Outside),
        b'/' => match *text.get(i + 1)? {
            b'/' => Some(Inside::InLine),
            b'*' => Some(Inside::Opening(i)),
            _ => None,
        },
        _ => None,
    }
}

// Where the byte behind a place of a gap stands, by where that place does; none where the gap ends here.
#[tactic(auto, using(crate::proofs::PlaceLaws::at_place), unfolding(notation::specs::Lexer::skip, notation::specs::Lexer::block_on, notation::specs::Lexer::star_on))]
fn step(text: &[u8], i: usize, inside: Inside) -> Option<Inside>
    requires { i < length text.now }
    ensures { Stepped text.now i inside result }
{
    let b = text[i];
    match inside {
        Inside::Outside => front(text, i),
        Inside::InLine if b == b'\n' => Some(Inside::Outside),
        Inside::InLine => Some(inside),
        Inside::Opening(comment) => Some(Inside::InBlock(comment)),
        Inside::Starred(_) if b == b'/' => Some(Inside::Outside),
        Inside::InBlock(comment) | Inside::Starred(comment) => {
            if b == b'*' {
                Some(Inside::Starred(comment))
            } else {
                Some(Inside::InBlock(comment))
            }
        }
    }
}

// Where the first byte is that is this one.
fn find(rest: &[u8], b: u8) -> Option<usize>
    ensures { result ≡ position (λ x. x == b) rest.now }
{
    rest.iter().position(|x| *x == b)
}

// How many bytes are passed at once: in a line up to its end, in a block up to the next `*`.
#[tactic(auto, using(crate::proofs::GapLaws::line_further, crate::proofs::GapLaws::block_further))]
fn passed(rest: &[u8], inside: Inside) -> usize
    ensures { Further rest.now inside result }
{
    match inside {
        Inside::InLine => find(rest, b'\n').unwrap_or(rest.len()),
        Inside::InBlock(_) => find(rest, b'*').unwrap_or(rest.len()),
        _ => 0,
    }
}

// The place behind the gap that begins at a place.
#[tactic(auto, using(crate::proofs::PlaceLaws::over), unfolding(notation::specs::Lexer::skip, crate::specs::Gaps::skipped, crate::specs::Gaps::place))]
pub fn gap_from(text: &[u8], start: usize) -> Result<usize, OpenComment>
    ensures { Skips text.now start result }
{
    // The place is stepped by hand: a step passes one byte or many.
    let mut i = start;
    let mut inside = Inside::Outside;
    while i < text.len() {
        let Some(next) = step(text, i, inside) else {
            return Ok(i);
        };
        inside = next;
        i = i + 1 + passed(&text[i + 1..], next);
    }
    match inside {
        Inside::Outside | Inside::InLine => Ok(i),
        Inside::Opening(at) | Inside::InBlock(at) | Inside::Starred(at) => Err(OpenComment { at }),
    }
}
