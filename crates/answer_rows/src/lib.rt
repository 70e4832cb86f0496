// Answers as rows of numbers: document 01's row of each, in its order.
#![tactic(auto)]

pub mod card;
pub mod field;
pub mod payroll;
mod refused;
pub mod sheet;
