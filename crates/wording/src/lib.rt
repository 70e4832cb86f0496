// Texts for people, put into a buffer: words, numbers and lines, one behind the other.
#![tactic(auto)]

pub mod line;
pub mod put;
