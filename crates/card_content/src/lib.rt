// The fields of a card file's records: where each stands, what it may hold, and what it says.
#![tactic(auto)]

pub mod content;
pub mod field;
