// The machine: the evaluator over the nineteen kinds.
#![tactic(auto)]

pub mod evaluate;
