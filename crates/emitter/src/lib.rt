// The nodes of a text that has passed every test, written by one walk over its symbols.
#![tactic(auto)]

pub mod emit;
pub mod pattern;
pub mod state;
pub mod step;
