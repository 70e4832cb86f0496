// The records around the sales of a card file: the header and trailer of the file, A0 and A9, and of a batch, L0 and L9.
#![tactic(auto)]

pub mod a0;
pub mod a9;
pub mod l0;
pub mod l9;
