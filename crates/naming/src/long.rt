// Quoted texts past their limit.
ghost use Rattle.std.specs.Prelude.{◌≡◌};
ghost use Rattle.notation.specs.Lexer.{lexemes};
ghost use Rattle.notation.specs.Places.{token_place, first_where};
ghost use Rattle.notation.specs.Places as Places;
ghost use Rattle.lexer.specs.Meant.{meant};
ghost use Rattle.naming.specs.Found.{found, Met};

use crate::first::first_where;
use chars::quoted::quoted_length;
use lexer::token::{Kind, Leaf, Token};

// Whether a token is a quoted text of over 64 bytes.
fn is_long(text: &[u8], t: Token) -> bool
    requires { Met text.now t }
    ensures { result ≡ Places.long (meant text.now t) }
{
    t.kind == Kind::Leaf(Leaf::Quoted) && 64 < quoted_length(text, t.start)
}

// Finds the first quoted text of over 64 bytes.
pub fn first_long(text: &[u8]) -> Option<usize>
    ensures { result ≡ found (token_place text.now) (first_where Places.long (lexemes text.now)) }
{
    first_where(text, |t| is_long(text, t)).map(|t| t.start)
}
