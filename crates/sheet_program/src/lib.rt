// The work of the program `sheet`: the day sheet of a card file, from file to file, and a sheet that is read again or converted.
#![tactic(auto)]

pub mod convert;
mod load;
pub mod read;
mod save;
pub mod verdict;
pub mod work;
mod write;
