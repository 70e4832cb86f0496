// What C links of `c_chunks`: a file in chunks. Each export calls the library's function, and states its clauses again.
// (`no_mangle` on a function of a library exports nothing, so the names of the two crates do not clash.)
#![tactic(auto)]

pub mod card;
pub mod payroll;
