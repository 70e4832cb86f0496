// What C asks of a file that it gives in chunks of any size: the state is numbers and bytes that the caller keeps, and any are taken.
// The two files of it are alike: their functions are the C interface, each with a name, a state and a contract of its own.
#![tactic(auto)]

pub mod card;
pub mod payroll;
