// An adjustment, the record of kind AJ: its table, what reading it answers, and the rules that look at it alone.
#![tactic(auto)]

pub mod aj;
