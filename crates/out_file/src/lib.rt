// The file that a program writes: made under a temporary name, and given its own only when it is whole.
#![tactic(auto)]

mod beside;
mod call;
mod chance;
pub mod draft;
mod folder;
pub mod place;
pub mod saved;
pub mod step;
