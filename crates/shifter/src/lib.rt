// Shifts and rotations, saturation, and the two operations on mantissas.
//
// Pure functions from operands to a result and flags. An operation that leaves C as it was takes it and hands it back.
#![tactic(auto)]

pub mod normalise;
pub mod saturate;
pub mod shift;
