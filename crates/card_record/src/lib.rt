// A record of a card file: its kind, what reading its bytes answers, and where its card stands.
#![tactic(auto)]

pub mod card_part;
pub mod kind;
pub mod reading;
