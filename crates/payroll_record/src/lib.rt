// The records of a payroll file: their tables, and what reading a record's bytes answers.
#![tactic(auto)]

pub mod batch_header;
pub mod batch_trailer;
pub mod detail;
pub mod field;
pub mod file_header;
pub mod file_trailer;
pub mod front;
pub mod kind;
pub mod reading;
