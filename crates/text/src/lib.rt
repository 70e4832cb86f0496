// The parts of a record, and what they may hold: which bytes, the number that digits write, a given text.
#![tactic(auto)]

pub mod alphabet;
pub mod literal;
pub mod number;
pub mod part;
