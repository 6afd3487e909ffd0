// The parts that a machine stands on: bytes of the input, the slot buffer, symbols against the input, and an outcome in one number.
#![tactic(auto)]

pub mod bytes;
pub mod compare;
pub mod outcome;
pub mod slots;
