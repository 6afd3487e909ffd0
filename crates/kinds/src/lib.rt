// What the kinds make of an outcome inside them, and what holds while an expression runs.
#![tactic(auto)]

pub mod inside;
pub mod state;
