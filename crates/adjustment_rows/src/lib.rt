// The adjustments of a card file as CSV: a header line, and a row for each record of kind AJ.
#![tactic(auto)]

mod amount;
mod quoting;
pub mod row;
pub mod rows;
