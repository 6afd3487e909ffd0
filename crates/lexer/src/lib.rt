// A text's tokens: the one at a place, with the place behind it.
//
// `token_from` is what reads a text. `gap_from` skips the blanks and comments before a token and in it.
#![tactic(auto)]

pub mod gap;
pub mod name;
mod operator;
pub mod token;
pub mod tokens;
mod word;
