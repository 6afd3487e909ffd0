// What holds while an expression runs and is put back when it is left: it goes by value, down only.
ghost use Rattle.std.specs.Prelude.{◌≡◌, true, ◌≤◌, ◌<◌, length, get_or};
ghost use Rattle.kinds.specs.Held.{env_of, hiding};
ghost use Rattle.meaning.specs.State.{switch};

// The truth of each condition; for each table how many symbols were held when its innermost Local was entered.
#[derive(Clone, Copy)]
pub struct State {
    pub truths: [bool; 8],
    pub floors: [u16; 8],
}

impl State {
    // The truth of a condition.
    pub fn truth(self, condition: u32) -> bool
        requires { condition < 8 }
        ensures { result ≡ get_or (env_of self).truths condition true }
    {
        self.truths[condition as usize]
    }

    // How many symbols are hidden from a table.
    pub fn floor(self, table: u32) -> u32
        requires { table < 8 }
        ensures { result ≡ get_or (env_of self).floors table 0 }
    {
        u32::from(self.floors[table as usize])
    }

    // Inside an On the condition has the named truth.
    pub fn with_truth(self, condition: u32, truth: bool) -> State
        requires { condition < 8 }
        ensures { env_of result ≡ switch (env_of self) condition truth }
    {
        let mut inside = self;
        inside.truths[condition as usize] = truth;
        inside
    }

    // Inside a Local everything held so far is hidden from the table.
    pub fn with_floor(self, table: u32, held: u32) -> State
        requires { (table < 8) × (held ≤ 256) }
        ensures { env_of result ≡ hiding (env_of self) table held }
    {
        let mut inside = self;
        inside.floors[table as usize] = held as u16;
        inside
    }
}
