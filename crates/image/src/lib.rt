// The image of a grammar: the ranges of its numbers, its nodes, and the one walk that checks a whole image.
//
// `check` takes every byte string, of any length, and says good or the first fault and its place. `load` does the same walk
// and puts down what the evaluator visits nodes by; `node_of` gives the node that is kept there.
#![tactic(auto)]

pub mod head;
pub mod node;
mod number;
mod operands;
pub mod walk;

pub use head::Head;
pub use node::node_of;
pub use walk::{check, load};
