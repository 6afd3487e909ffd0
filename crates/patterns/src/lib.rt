// A table has one pattern: whether a text's defs of one table are alike as read.
//
// `one_pattern` goes over a text's defs and holds each to the one before it of its table; `alike` compares two expressions, symbol by symbol.
#![tactic(auto)]

pub mod alike;
pub mod contents;
pub mod one;
