// Multiplication and division.
//
// Pure functions from operands to a result and flags. An operation that leaves C as it was takes it and hands it back.
#![tactic(auto)]

pub mod divide;
pub mod multiply;
