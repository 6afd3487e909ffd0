// Names of a text, kept as places in an array: in byte order of the names, each name once.
#![tactic(auto)]

pub mod list;
pub mod order;
