// Quoted text.
ghost use Rattle.std.specs.Prelude.{◌≡◌, drop, length};
ghost use Rattle.notation.specs.Lexer.{fresh, quote, same};
ghost use Rattle.notation.specs.At.{quoted_of};
ghost use Rattle.chars.specs.Meant.{left, QuoteEnds, QuotedAt};

use crate::row::{Row, row_end};

// Where the quoted text ends whose first byte, behind its mark, stands at `from`.
pub fn quote_end(text: &[u8], from: usize, mark: u8) -> Option<usize>
    ensures { QuoteEnds mark text.now from result }
{
    row_end::<u8>(text, from, mark)
}

// The bytes that the quoted text at p stands for.
#[tactic(auto, using(crate::proofs::RowLaws::quoted_is))]
pub fn quoted(text: &[u8], p: usize) -> Row<'_, u8>
    requires { QuotedAt text.now p }
    ensures { left (λ mark. quote mark fresh) result.stop result.text.now result.at ≡ quoted_of (drop p text.now) }
{
    Row::new(text, p + 1, text[p])
}

// Whether the quoted text at p stands for the same bytes as the one at q.
pub fn same_quoted(text: &[u8], p: usize, q: usize) -> bool
    requires { QuotedAt text.now p × QuotedAt text.now q }
    ensures { result ≡ same (quoted_of (drop p text.now)) (quoted_of (drop q text.now)) }
{
    quoted(text, p).eq(quoted(text, q))
}

// How many bytes the quoted text at p stands for.
pub fn quoted_length(text: &[u8], p: usize) -> usize
    requires { QuotedAt text.now p }
    ensures { result ≡ length (quoted_of (drop p text.now)) }
{
    quoted(text, p).count()
}
