// The first token of which a test holds.
ghost use Rattle.std.specs.Prelude.{◌≡◌, Bool, false};
ghost use Rattle.notation.specs.Token.{bad};
ghost use Rattle.notation.specs.Token as N;
ghost use Rattle.notation.specs.Lexer.{lexemes};
ghost use Rattle.notation.specs.Places as Places;
ghost use Rattle.lexer.specs.Meant.{meant};
ghost use Rattle.naming.specs.Found.{Met, IsOf};

use lexer::token::Token;
use lexer::tokens::Tokens;

// Finds the first token of which a test holds.
pub(crate) fn first_where<F: Fn(Token) -> bool>(text: &[u8], test: F) -> Option<Token>
    requires { (t : Token) → Met text.now t → F.pre test t }
    ensures { (holds : N.Token → Bool) → holds bad ≡ false → ((t : Token) (b : Bool) → Met text.now t → F.post test t b → b ≡ holds (meant text.now t))
        → IsOf text.now (Places.first_where holds (lexemes text.now)) result }
{
    for t in Tokens::new(text) {
        if test(t) {
            return Some(t);
        }
    }
    None
}
