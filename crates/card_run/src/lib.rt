// The running state of a card file: how far it has come, its numbers so far, and its answer.
#![tactic(auto)]

pub mod adjusted;
pub mod answer;
pub mod batch;
pub mod running;
pub mod stage;
