// A sale, the record of kind CV: its table, what reading it answers, and the rules that look at it alone.
#![tactic(auto)]

pub mod cv;
