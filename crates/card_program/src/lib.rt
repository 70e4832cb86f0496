// The work of the program `card`: from the bytes of its arguments and a reader or names to outcomes, and from an outcome to what is printed.
#![tactic(auto)]

pub mod check;
pub mod list;
pub mod outcome;
pub mod verdict;
pub mod work;
