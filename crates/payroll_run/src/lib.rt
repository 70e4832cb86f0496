// The running state of a payroll file: how far it has come, its counts and sums, and what each record that keeps the rules makes of it.
#![tactic(auto)]

pub mod behind;
pub mod running;
pub mod stage;
