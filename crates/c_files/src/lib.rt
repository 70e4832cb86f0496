// What C asks of a whole file, of a day sheet and of a sale: plain numbers, bytes that are lent, and answers as rows.
#![tactic(auto)]

pub mod card;
pub mod payroll;
pub mod sale;
pub mod sheet;
