// What is said of a text, and its image: all phases of reading a grammar's text put together.
#![tactic(auto)]

pub mod compile;
pub mod image;
pub mod judge;
pub mod refusal;
