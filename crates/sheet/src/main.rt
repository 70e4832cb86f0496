// sheet EDITION FILE OUT: writes the day sheet of an accepted card file to OUT, and prints the file's verdict.
// sheet --convert FILE OUT: writes a day sheet to OUT in the other version, and prints the numbers of that one.
// sheet FILE: prints the numbers of a day sheet.
#![tactic(auto)]

use card_program::verdict::Lines;
use program::mistake::{Mistake, Program};
use program::{argument, mistake};
use sheet_program::{convert, read, verdict, work};

fn is_convert(argument: &[u8]) -> bool {
    text::literal::equals(argument, b"--convert")
}

// Converts, or writes the sheet of a card file under the edition that the first argument states.
fn save_sheet(rt: &HostRuntime, first: &[u8], file: &[u8], out: &[u8]) {
    if is_convert(first) {
        verdict::print(rt, convert::convert(rt, file, out));
    } else {
        card_program::verdict::print(rt, Lines::Sales, work::work(rt, first, file, out));
    }
}

// Saves a sheet of the file that the second argument names in the one that the third does.
fn save_named(rt: &HostRuntime) -> Result<(), Mistake> {
    let mut first = argument::room();
    let mut file = io::buffer();
    let mut out = io::buffer();
    let (a, b, c) = argument::read_three(rt, &mut first, &mut file, &mut out)?;
    save_sheet(rt, &first[..a], &file[..b], &out[..c]);
    Ok(())
}

// Prints the numbers of the sheet that the first argument names; `--convert` alone is no name.
fn print_named(rt: &HostRuntime) -> Result<(), Mistake> {
    let mut file = io::buffer();
    let size = argument::read(rt, 1, &mut file)?;
    if is_convert(&file[..size]) {
        return Err(Mistake::Usage(Program::Sheet));
    }
    verdict::print(rt, read::read(rt, &file[..size]));
    Ok(())
}

fn main(rt: HostRuntime) {
    let mistaken = match argument::count(&rt) {
        2 => print_named(&rt),
        4 => save_named(&rt),
        _ => Err(Mistake::Usage(Program::Sheet)),
    };
    if let Err(mistake) = mistaken {
        mistake::tell(&rt, mistake);
    }
}
