// The numbers that an image begins with.
ghost use Rattle.std.specs.Prelude.{◌<◌, ◌≤◌};

// How many tables, conditions and nodes the grammar of an image has, and its start node.
#[derive(Clone, Copy, Debug, PartialEq, Eq)]
pub struct Head {
    pub tables: u32,
    pub conditions: u32,
    pub nodes: u32,
    pub start: u32,
    ghost few_tables: { tables ≤ 8 },
    ghost few_conditions: { conditions ≤ 8 },
    ghost few_nodes: { nodes ≤ 512 },
    ghost starts: { start < nodes },
}
