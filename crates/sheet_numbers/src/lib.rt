// The numbers of a day sheet: what may stand on one, and the same in the other version.
#![tactic(auto)]

mod allowed;
pub mod sheet;
