// The numbers of names: a name's place among others, and a production's node.
ghost use Rattle.std.specs.Prelude.{◌≡◌, ◌≤◌, length};
ghost use Rattle.notation.specs.At.{name_at};
ghost use Rattle.index.specs.Listed.{Ascending};
ghost use Rattle.writer.specs.Named.{names_of, place_by, production_by};

use index::list::seek;

// The names of a text as places in it, each sort in byte order: those of productions, with each one's node beside them, those of tables, and those of conditions.
#[derive(Clone, Copy)]
pub struct Names<'a> {
    pub text: &'a [u8],
    pub heads: &'a [u16],
    pub roots: &'a [u16],
    pub tables: &'a [u16],
    pub switches: &'a [u16],
}

impl<'a> Names<'a> {
    // The number of the table whose name stands at p; behind all if there is none.
    pub fn table(self, p: usize) -> usize
        requires { Ascending (names_of self.text.now self.tables.now) }
        ensures { (result ≡ place_by self.entry.text.now self.entry.tables.now (name_at self.entry.text.now p)) × (result ≤ length self.entry.tables.now) }
    {
        place_of(self.text, self.tables, p)
    }

    // The number of the condition whose name stands at p; behind all if there is none.
    pub(crate) fn switch(self, p: usize) -> usize
        requires { Ascending (names_of self.text.now self.switches.now) }
        ensures { (result ≡ place_by self.entry.text.now self.entry.switches.now (name_at self.entry.text.now p)) × (result ≤ length self.entry.switches.now) }
    {
        place_of(self.text, self.switches, p)
    }

    // The node of the production whose name stands at p; 0 if there is none.
    pub(crate) fn root(self, p: usize) -> u16
        requires { Ascending (names_of self.text.now self.heads.now) }
        ensures { result ≡ production_by self.entry.text.now self.entry.heads.now self.entry.roots.now (name_at self.entry.text.now p) }
    {
        let place = place_of(self.text, self.heads, p);
        self.roots.get(place).copied().unwrap_or(0)
    }
}

// The place of the name at p among those of a slice; behind all if it is none of them.
pub fn place_of(text: &[u8], at: &[u16], p: usize) -> usize
    requires { Ascending (names_of text.now at.now) }
    ensures { (result ≡ place_by text.now at.now (name_at text.now p)) × (result ≤ length at.now) }
{
    seek(text, at, p).unwrap_or(at.len())
}
