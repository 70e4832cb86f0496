// The work of the programs that write what they make of a card file, from file to file in one pass: of `mask` its masked copy, of `adjustments` the rows of its
// adjustments.
#![tactic(auto)]

mod buffer;
mod copy;
mod file;
mod hand;
pub mod output;
pub mod work;
mod write;
