// A payroll file read whole, and its answer.
#![tactic(auto)]

pub mod answer;
pub mod file;
