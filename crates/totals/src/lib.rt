// Sums that never wrap, and the amounts and totals that are added with them.
#![tactic(auto)]

pub mod amounts;
pub mod sum;
pub mod two_sets;
