// The programs' work, case by case: each runs in a folder of its own, and prints a line of what was asked, the text that the program says, what then stands
// at OUT, and whether anything else was left in the folder. The cases come as steps.
#![tactic(auto)]

use cases::layout::PART;

mod compare;
mod folder;
mod opened;
mod out;
mod question;
mod step;

fn main(rt: HostRuntime) {
    PART.print_file(&rt, b"own.cases", |_, step| step::run_step(&rt, step));
}
