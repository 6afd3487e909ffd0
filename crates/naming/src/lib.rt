// What a text's tokens decide one by one: the names that they define and use, the nodes that they come to, and what is past a limit.
#![tactic(auto)]

pub mod first;
pub mod gather;
pub mod image;
pub mod long;
pub mod nodes;
pub mod roots;
pub mod undefined;
pub mod weight;
