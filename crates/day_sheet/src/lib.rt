// The bytes of a day sheet, versions 1 and 2: there and back, and from one version to the other.
#![tactic(auto)]

pub mod converter;
pub mod layout;
pub mod number;
mod places;
pub mod reader;
pub mod row;
pub mod writer;
