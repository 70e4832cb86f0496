// What the programs share: their arguments, and what is said of their work, and how a file is read in chunks.
#![tactic(auto)]

pub mod argument;
pub mod mistake;
pub mod outcome;
mod reason;
pub mod stream;
