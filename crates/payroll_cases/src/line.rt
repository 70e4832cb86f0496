// The line of a payroll file: its answer.
use crate::streamed;
use answer_rows::payroll::payroll_row;
use cases::{answer, print};
use payroll_file::answer::{Accepted, PayrollAnswer};
use refusal::Progress;

// The longest file that is cut at every place.
const CUT_MOST: usize = 1000;

// `A records batches payments amount`
fn print_accepted(accepted: Accepted) {
    print::byte(b'A');
    answer::next_number(accepted.records);
    answer::next_number(accepted.batches);
    answer::next_number(accepted.payments);
    answer::next_number(accepted.amount);
}

fn print_answer(answer: PayrollAnswer) {
    answer::print_answer(answer, print_accepted);
}

// Prints the answer of a file read whole, a line.
pub fn print_whole(file: &[u8]) {
    print_answer(payroll_file::file::check(file));
    print::byte(b'\n');
}

// Prints the answer of a stream, a line; `-` where there is none.
pub fn print_progress(progress: Progress<Accepted>) {
    answer::print_progress(progress, print_accepted);
    print::byte(b'\n');
}

// Prints the answer of a file in chunks, a line.
pub fn print_in_chunks(file: &[u8]) {
    print_progress(streamed::in_chunks(file));
}

// Prints the answer of a file read whole, and how many of its cuts in two have the same, a line. A longer file is left out.
pub fn print_cuts(file: &[u8]) {
    if CUT_MOST < file.len() {
        return;
    }
    let whole = payroll_file::file::check(file);
    print_answer(whole);
    answer::next_cuts(streamed::cuts_alike(file, &payroll_row(whole)));
}
