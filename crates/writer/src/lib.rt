// What a grammar's text is made of, as the bytes of an image: numbers, nodes, leaves and operators, and an image's front.
#![tactic(auto)]

pub mod class;
pub mod head;
pub mod leaf;
pub mod named;
pub mod node;
pub mod operator;
pub mod out;
pub mod quoted;
