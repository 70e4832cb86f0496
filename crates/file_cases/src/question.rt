// The questions to the programs' work, and the texts that it says.
use crate::opened::Opened;
use card_copy::output::Output;
use card_program::outcome::Outcome;
use card_program::verdict::Lines;
use cases::print;
use payroll_program::check;
use sheet_program::read::SheetOutcome;
use sheet_program::{convert, read};

// The letters of the questions: a card file or a payroll file is checked, a card file masked into OUT, its day sheet written to OUT, and a day sheet read, or
// converted into OUT; a card file's adjustments are told, or written to OUT. Letters and no enum: the stored cases hold them, and each is looked at once.
const CARD: u64 = b'C' as u64;

const PAYROLL: u64 = b'P' as u64;

const MASK: u64 = b'M' as u64;

const SHEET: u64 = b'S' as u64;

const READ: u64 = b'R' as u64;

const CONVERT: u64 = b'V' as u64;

const ADJUSTED: u64 = b'A' as u64;

const ROWS: u64 = b'J' as u64;

// Room for every text.
const ROOM: usize = 448;

// Prints a text that is put in front of a room, whether it goes to standard output or to standard error.
fn print_text<F: FnOnce(&mut [u8]) -> usize>(put: F)
    requires { F.IsAlwaysCallable put }
{
    let mut room = [0u8; ROOM];
    let size = put(&mut room);
    if size <= ROOM {
        print::text(&room[..size]);
    }
}

// The text of an outcome of a card file.
fn print_outcome(lines: Lines, outcome: Outcome) {
    print_text(|room| card_program::verdict::put_outcome(lines, outcome, room, 0));
}

// The same of a day sheet.
fn print_sheet(outcome: SheetOutcome) {
    print_text(|room| sheet_program::verdict::put_outcome(outcome, room, 0));
}

// Checks a card file from a reader.
fn print_card(rt: &HostRuntime, lines: Lines, edition: &[u8], file: &[u8]) {
    let mut reader = Opened::at(rt, file);
    print_outcome(lines, card_program::work::work(edition, &mut reader));
}

// Checks a payroll file from a reader.
fn print_payroll(rt: &HostRuntime, file: &[u8]) {
    let mut reader = Opened::at(rt, file);
    let outcome = check::check(&mut reader);
    print_text(|room| payroll_program::verdict::put_outcome(outcome, room, 0));
}

// Makes an output of a card file.
fn print_copy(
    rt: &HostRuntime,
    lines: Lines,
    output: Output,
    edition: &[u8],
    file: &[u8],
    out: &[u8],
) {
    print_outcome(lines, card_copy::work::work(rt, output, edition, file, out));
}

// Asks the question of a letter, and prints what its program says.
pub fn print(rt: &HostRuntime, letter: u64, edition: &[u8], file: &[u8], out: &[u8]) {
    match letter {
        CARD => print_card(rt, Lines::Sales, edition, file),
        PAYROLL => print_payroll(rt, file),
        MASK => print_copy(rt, Lines::Sales, Output::MaskedCopy, edition, file, out),
        SHEET => print_outcome(
            Lines::Sales,
            sheet_program::work::work(rt, edition, file, out),
        ),
        READ => print_sheet(read::read(rt, file)),
        CONVERT => print_sheet(convert::convert(rt, file, out)),
        ADJUSTED => print_card(rt, Lines::Adjustments, edition, file),
        ROWS => print_copy(
            rt,
            Lines::Adjustments,
            Output::Adjustments,
            edition,
            file,
            out,
        ),
        _ => print::text(b"no such step\n"),
    }
}
