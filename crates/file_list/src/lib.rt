// Many files in one call: the line of each, how many there were of each kind, and what is printed at the end.
#![tactic(auto)]

pub mod line;
pub mod list;
pub mod listed;
pub mod tally;
