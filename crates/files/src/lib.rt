// Opening, reading and writing files, and the number of an error.
#![tactic(auto)]

pub mod error;
pub mod opening;
pub mod reading;
pub mod writing;
