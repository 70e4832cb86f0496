// The work of the program `payroll`: from a reader or names to outcomes, and from an outcome to what is printed.
#![tactic(auto)]

pub mod check;
pub mod list;
pub mod outcome;
pub mod verdict;
