// A reader over an image: it hands out one number at a time. The number's place is where the reader stood, and behind it the reader then stands.
//
// The walk over an image reads every number through one reader, and what is wrong with an image is a `Refusal`.
#![tactic(auto)]

mod number;
pub mod reader;
pub mod refusal;

pub use reader::Reader;
pub use refusal::{Fault, Refusal};
