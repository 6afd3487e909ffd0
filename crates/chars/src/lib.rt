// The bytes that quoted text and classes of a text stand for, each as it is written.
#![tactic(auto)]

pub mod class;
pub mod quoted;
pub mod row;
pub mod written;
