// The state of a file as numbers that a caller keeps from one call to the next, there and back.
#![tactic(auto)]

pub mod card;
pub mod payroll;
mod refused;
