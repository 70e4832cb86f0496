// mask EDITION FILE OUT: writes the masked copy of an accepted card file to OUT, and prints the file's verdict.
#![tactic(auto)]

use card_copy::output::Output;
use card_copy::work;
use card_program::outcome::Outcome;
use card_program::verdict;
use card_program::verdict::Lines;
use program::mistake::{Mistake, Program};
use program::{argument, mistake};

// Saves the masked copy of the file that the second argument names in the one that the third does; or gives what is wrong with the arguments.
fn save_copy(rt: &HostRuntime) -> Result<Outcome, Mistake> {
    if argument::count(rt) != 4 {
        return Err(Mistake::Usage(Program::Mask));
    }
    let mut edition = argument::room();
    let mut file = io::buffer();
    let mut out = io::buffer();
    let (a, b, c) = argument::read_three(rt, &mut edition, &mut file, &mut out)?;
    Ok(work::work(rt, Output::MaskedCopy, &edition[..a], &file[..b], &out[..c]))
}

fn main(rt: HostRuntime) {
    match save_copy(&rt) {
        Ok(outcome) => verdict::print(&rt, Lines::Sales, outcome),
        Err(mistake) => mistake::tell(&rt, mistake),
    }
}
