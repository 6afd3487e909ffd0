// Names that are used and not defined.
ghost use Rattle.std.specs.Prelude.{◌≡◌, not, length};
ghost use Rattle.notation.specs.Lexer.{lexemes};
ghost use Rattle.notation.specs.At.{name_at};
ghost use Rattle.notation.specs.Naming.{member};
ghost use Rattle.notation.specs.Places.{name_place, first_where};
ghost use Rattle.notation.specs.Places as Places;
ghost use Rattle.index.specs.Listed.{names_at, Ascending};
ghost use Rattle.lexer.specs.Meant.{meant};
ghost use Rattle.naming.specs.Found.{found};
ghost use Rattle.naming.specs.Told.{asking};

use crate::first::first_where;
use index::list::seek;
use lexer::token::{Kind, Leaf, Opener, Token};

// Whether what is of this kind asks about a table or closes round it.
fn asks(kind: Kind) -> bool
    ensures { result ≡ asking kind }
{
    matches!(
        kind,
        Kind::Leaf(Leaf::Match | Leaf::Is | Leaf::Isa | Leaf::Exists)
            | Kind::Opens(Opener::Block | Opener::Local)
    )
}

// Whether the name at a place is none of the names at the places of a list.
fn is_missing(text: &[u8], at: &[u16], p: usize) -> bool
    requires { Ascending (names_at text.now at.now (length at.now)) }
    ensures { result ≡ not (member (name_at text.now p) (names_at text.now at.now (length at.now))) }
{
    seek(text, at, p).is_err()
}

// Whether a token calls what is no production, or asks about a table that is not defined.
fn is_undefined(text: &[u8], heads: &[u16], tables: &[u16], t: Token) -> bool
    requires { Ascending (names_at text.now heads.now (length heads.now)) × Ascending (names_at text.now tables.now (length tables.now)) }
    ensures { result ≡ Places.undefined (names_at text.now heads.now (length heads.now))
        (names_at text.now tables.now (length tables.now)) (meant text.now t) }
{
    if t.kind == Kind::Leaf(Leaf::Call) {
        return is_missing(text, heads, t.name);
    }
    asks(t.kind) && is_missing(text, tables, t.name)
}

// Finds the first name that is called and is no production's, or is a table's that is asked about and not defined. The names of productions, and
// of the tables that are defined, are at the places of the two lists.
pub fn first_undefined(text: &[u8], heads: &[u16], tables: &[u16]) -> Option<usize>
    requires { Ascending (names_at text.now heads.now (length heads.now)) × Ascending (names_at text.now tables.now (length tables.now)) }
    ensures { result ≡ found (name_place text.now)
        (first_where (Places.undefined (names_at text.now heads.now (length heads.now))
        (names_at text.now tables.now (length tables.now))) (lexemes text.now)) }
{
    first_where(text, |t| is_undefined(text, heads, tables, t)).map(|t| t.name)
}
