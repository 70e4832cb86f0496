// What C asks of a file that it gives record by record: the state is numbers that the caller keeps, and any numbers are taken.
// The two files of it are alike: their functions are the C interface, each with a name, a state and a contract of its own.
#![tactic(auto)]

pub mod card;
pub mod payroll;
