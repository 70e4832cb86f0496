// No code: what it means that a payroll file keeps document 01's rules, and that exactly such files are accepted.
#![tactic(auto)]
