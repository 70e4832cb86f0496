// card EDITION < FILE: checks a card file, and prints its verdict.
// card EDITION FILE..: checks many card files, and prints a line for each and the tally.
#![tactic(auto)]

use card_program::verdict::Lines;
use card_program::{list, verdict, work};
use file_list::listed;
use program::mistake::{Mistake, Program};
use program::{argument, mistake};

// Prints what comes of the file on standard input, or of the files that the arguments name.
fn print_checked(rt: &HostRuntime) -> Result<(), Mistake> {
    let count = argument::count(rt);
    if count < 2 {
        return Err(Mistake::Usage(Program::Card));
    }
    let mut edition = argument::room();
    let size = argument::read(rt, 1, &mut edition)?;
    if count == 2 {
        let outcome = work::work(&edition[..size], &mut rt.stdin());
        verdict::print(rt, Lines::Sales, outcome);
    } else {
        listed::print(rt, list::list_under(rt, &edition[..size], count));
    }
    Ok(())
}

fn main(rt: HostRuntime) {
    if let Err(mistake) = print_checked(&rt) {
        mistake::tell(&rt, mistake);
    }
}
