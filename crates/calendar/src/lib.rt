// Real days and times, as the files write them.
#![tactic(auto)]

pub mod day;
pub mod month;
pub mod time;
pub mod when;
