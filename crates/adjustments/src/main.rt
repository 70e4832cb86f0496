// adjustments EDITION < FILE: checks a card file, and prints the count and the net of its credits and of its debits.
// adjustments EDITION FILE OUT: writes the adjustments of an accepted card file to OUT as CSV, and prints the same.
#![tactic(auto)]

use card_copy::output::Output;
use card_program::outcome::Outcome;
use card_program::verdict;
use card_program::verdict::Lines;
use program::mistake::{Mistake, Program};
use program::{argument, mistake};

// Checks the file on standard input. Here and below, a mistake beside the outcome is one of the arguments.
fn check_read(rt: &HostRuntime) -> Result<Outcome, Mistake> {
    let mut edition = argument::room();
    let size = argument::read(rt, 1, &mut edition)?;
    Ok(card_program::work::work(&edition[..size], &mut rt.stdin()))
}

// Saves the adjustments of the file that the second argument names in the one that the third does.
fn save_named(rt: &HostRuntime) -> Result<Outcome, Mistake> {
    let mut edition = argument::room();
    let mut file = io::buffer();
    let mut out = io::buffer();
    let (a, b, c) = argument::read_three(rt, &mut edition, &mut file, &mut out)?;
    Ok(card_copy::work::work(
        rt,
        Output::Adjustments,
        &edition[..a],
        &file[..b],
        &out[..c],
    ))
}

fn main(rt: HostRuntime) {
    let outcome = match argument::count(&rt) {
        2 => check_read(&rt),
        4 => save_named(&rt),
        _ => Err(Mistake::Usage(Program::Adjustments)),
    };
    match outcome {
        Ok(outcome) => verdict::print(&rt, Lines::Adjustments, outcome),
        Err(mistake) => mistake::tell(&rt, mistake),
    }
}
