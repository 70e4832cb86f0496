// What the test programs share: reading cases out of a file, cutting files into chunks, and printing a line for each case.
#![tactic(auto)]

pub mod answer;
pub mod cursor;
pub mod cuts;
pub mod file;
pub mod hash;
pub mod layout;
pub mod output;
pub mod print;
pub mod row;
pub mod source;
