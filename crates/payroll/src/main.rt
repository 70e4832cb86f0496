// payroll < FILE: checks a payroll file, and prints its verdict.
// payroll FILE..: checks many payroll files, and prints a line for each and the tally.
#![tactic(auto)]

use file_list::listed;
use payroll_program::{check, list, verdict};
use program::argument;

fn main(rt: HostRuntime) {
    let count = argument::count(&rt);
    if count < 2 {
        verdict::print(&rt, check::check(&mut rt.stdin()));
    } else {
        listed::print(&rt, list::list(&rt, count));
    }
}
