// The line of a file: its answer, and the hash of its output. In chunks only the copy is made: that a file in chunks is answered as the whole is proved in
// `card_cases`.
use crate::copying;
use card_run::answer::CardAnswer;
use cases::hash::hash;
use cases::{answer, output, print};

// The longest file that is cut at every place.
const CUT_MOST: usize = 400;

fn print_answer(answer: CardAnswer, out: &[u8]) {
    answer::print_card_answer(answer);
    answer::next_number(hash(out));
}

// Masks a file read whole, and prints its line.
pub fn print_whole(edition: u64, file: &[u8], out: &mut [u8]) {
    output::fill(out);
    print_answer(card_mask::mask(edition, file, out), out);
    print::byte(b'\n');
}

// Masks a file in chunks, and prints its line. An output with no room for it is left out: 2 is no answer of a file in chunks.
pub fn print_in_chunks(edition: u64, file: &[u8], out: &mut [u8]) {
    if out.len() < file.len() {
        return;
    }
    let answer = card_file::check(edition, file);
    copying::put_in_chunks(answer, file, out);
    print_answer(answer, out);
    print::byte(b'\n');
}

// Prints the line of a file masked whole, and how many of its cuts in two have the same.
fn print_alike(edition: u64, file: &[u8], out: &mut [u8]) {
    output::fill(out);
    let answer = card_mask::mask(edition, file, out);
    print_answer(answer, out);
    let whole = hash(out);
    answer::next_cuts(copying::cuts_alike(answer, file, out, whole));
}

// The same, where the output has room for the file, and the file is short.
pub fn print_cuts(edition: u64, file: &[u8], out: &mut [u8]) {
    if out.len() < file.len() {
        return;
    }
    if file.len() <= CUT_MOST {
        print_alike(edition, file, out);
    }
}
