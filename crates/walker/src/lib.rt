// The walk over a text's tokens, with a stack of what is open.
#![tactic(auto)]

pub mod act;
pub mod walk;
